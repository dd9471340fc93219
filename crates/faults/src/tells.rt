ghost use Rattle.std.specs.Prelude.{◌≡◌};
ghost use Rattle.faults.specs.Faults.{record_refusal, record_spot, text_refusal, text_spot};
ghost use Rattle.faults.specs.declared.fault.RecordFault.TheVariants.{Line as OfLine};
ghost use Rattle.faults.specs.declared.fault.TextFault.TheVariants.{Record as OfRecord};

use crate::fault::{RecordFault, TextFault};
use frames::refusal::Refusal;
use spots::fault::{Fault, LineFault, Spot};

impl From<LineFault> for RecordFault {
    ghost from_gives = { λ e r. r ≡ OfLine e };

    fn from(e: LineFault) -> RecordFault {
        RecordFault::Line(e)
    }
}

impl From<RecordFault> for TextFault {
    ghost from_gives = { λ e r. r ≡ OfRecord e };

    fn from(e: RecordFault) -> TextFault {
        TextFault::Record(e)
    }
}

impl Fault for RecordFault {
    ghost refused_as = { record_refusal };

    ghost stopped_at = { record_spot };

    fn refusal(self) -> Refusal {
        match self {
            RecordFault::Line(fault) => fault.refusal(),
            RecordFault::ShiftFull { .. } => Refusal::ShiftFull,
        }
    }

    // A full shift is no line's fault: what is printed and answered of it says line 0.
    fn spot(self) -> Spot {
        match self {
            RecordFault::Line(fault) => fault.spot(),
            RecordFault::ShiftFull { record, byte } => Spot {
                record,
                line: 0,
                byte,
            },
        }
    }
}

impl Fault for TextFault {
    ghost refused_as = { text_refusal };

    ghost stopped_at = { text_spot };

    fn refusal(self) -> Refusal {
        match self {
            TextFault::Record(fault) => fault.refusal(),
            TextFault::LongText => Refusal::LongText,
        }
    }

    // A text that is too long is not looked into: what is printed and answered of it says 0 three times.
    fn spot(self) -> Spot {
        match self {
            TextFault::Record(fault) => fault.spot(),
            TextFault::LongText => Spot::default(),
        }
    }
}
