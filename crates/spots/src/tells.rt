ghost use Rattle.spots.specs.Faults.{line_refusal, line_spot};

use crate::fault::{Fault, LineFault, Spot};
use frames::refusal::Refusal;

impl Fault for LineFault {
    ghost refused_as = { line_refusal };

    ghost stopped_at = { line_spot };

    fn refusal(self) -> Refusal {
        match self {
            LineFault::WrongKey(_) => Refusal::WrongKey,
            LineFault::BadForm(_) => Refusal::BadForm,
            LineFault::Over(_) => Refusal::Over,
            LineFault::Cut(_) => Refusal::Cut,
        }
    }

    fn spot(self) -> Spot {
        match self {
            LineFault::WrongKey(spot)
            | LineFault::BadForm(spot)
            | LineFault::Over(spot)
            | LineFault::Cut(spot) => spot,
        }
    }
}
