ghost use Rattle.std.specs.Prelude.{◌≡◌, Some};
ghost use Rattle.frames.specs.Refusals.{number_of, text_of};

use std::error::Error;
use std::fmt;

// Why a call is declined, each with the number by which users know it.
#[derive(Clone, Copy, PartialEq, Eq, Debug)]
pub enum Refusal {
    BadSize = 1,
    ShiftFull = 2,
    NoPlace = 3,
    ShortSheet = 4,
    WrongKey = 5,
    BadForm = 6,
    Over = 7,
    Cut = 8,
    LongText = 9,
    Miscount = 10,
    Rising = 11,
    BadParent = 12,
}

impl Refusal {
    // The number by which users know a refusal.
    pub fn number(self) -> u8
        ensures { result ≡ number_of self }
    {
        self as u8
    }
}

impl fmt::Display for Refusal {
    ghost output = { λ r. Some (text_of r) };

    fn fmt<W: fmt::Write>(&self, f: &mut fmt::Formatter<W>) -> fmt::Result {
        f.write_str(match self {
            Refusal::BadSize => "the size is 0 or above 48",
            Refusal::ShiftFull => "1,000,000 frames are taken in since the last clear",
            Refusal::NoPlace => "the place is at or past the kept count",
            Refusal::ShortSheet => "the buffer is shorter than the lines due",
            Refusal::WrongKey => "a byte differs from the key due",
            Refusal::BadForm => "a value is not written as it should be",
            Refusal::Over => "a number is above its highest value",
            Refusal::Cut => "the text ends within a record",
            Refusal::LongText => "the text is above 65,536 bytes",
            Refusal::Miscount => "the settings are not of the stated length",
            Refusal::Rising => "a step is above the one before it in its lane",
            Refusal::BadParent => "a parent is not allowed to its box",
        })
    }
}

impl Error for Refusal {}
