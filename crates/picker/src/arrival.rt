ghost use Rattle.std.specs.Prelude.{◌≡◌, true, false, MatchResult};
ghost use Rattle.frames.specs.Frames.{InRange};
ghost use Rattle.frames.specs.declared.refusal.Refusal.TheVariants.{Over as OverOf};
ghost use Rattle.picker.specs.Arrivals.{too_high};

use frames::frame::{Frame, LANES};
use frames::refusal::Refusal;

// A frame that a record can hold.
#[derive(Clone, Copy)]
pub(crate) struct Arrival {
    pub(crate) frame: Frame,
    ghost range: { InRange frame },
}

impl TryFrom<Frame> for Arrival {
    type Error = Refusal;

    ghost try_from_gives = { λ x r. MatchResult r (λ arrival. (arrival.frame ≡ x) × (too_high x ≡ false)) (λ e. (e ≡ OverOf) × (too_high x ≡ true)) };

    fn try_from(x: Frame) -> Result<Self, Refusal> {
        if usize::from(x.lane) >= LANES || x.side > 1 {
            return Err(Refusal::Over);
        }
        Ok(Arrival { frame: x })
    }
}
