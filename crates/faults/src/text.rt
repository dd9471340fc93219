ghost use Rattle.std.specs.Prelude.{Some};
ghost use Rattle.faults.specs.Faults.{record_fault_text, text_fault_text};

use crate::fault::{RecordFault, TextFault};
use frames::refusal::Refusal;
use std::error::Error;
use std::fmt;

impl fmt::Display for RecordFault {
    ghost output = { λ e. Some (record_fault_text e) };

    fn fmt<W: fmt::Write>(&self, f: &mut fmt::Formatter<W>) -> fmt::Result {
        match self {
            RecordFault::Line(fault) => write!(f, "{fault}"),
            RecordFault::ShiftFull { record, byte } => write!(
                f,
                "{}, in record {record}, at byte {byte}",
                Refusal::ShiftFull
            ),
        }
    }
}

impl Error for RecordFault {}

impl fmt::Display for TextFault {
    ghost output = { λ e. Some (text_fault_text e) };

    fn fmt<W: fmt::Write>(&self, f: &mut fmt::Formatter<W>) -> fmt::Result {
        match self {
            TextFault::Record(fault) => write!(f, "{fault}"),
            TextFault::LongText => write!(f, "{}", Refusal::LongText),
        }
    }
}

impl Error for TextFault {}
