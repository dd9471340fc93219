ghost use Rattle.std.specs.Prelude.{Some};
ghost use Rattle.spots.specs.Faults.{line_fault_text};

use crate::fault::{Fault, LineFault, Spot};
use std::error::Error;
use std::fmt;

impl fmt::Display for LineFault {
    ghost output = { λ e. Some (line_fault_text e) };

    fn fmt<W: fmt::Write>(&self, f: &mut fmt::Formatter<W>) -> fmt::Result {
        let Spot { record, line, byte } = self.spot();
        write!(
            f,
            "{}, in record {record}, line {line}, at byte {byte}",
            self.refusal()
        )
    }
}

impl Error for LineFault {}
