ghost use Rattle.std.specs.Prelude.{◌≡◌};
ghost use Rattle.records.specs.Of.{digits_of};

use crate::digits::Digits;

// A line whose key and line feed were found, with the bytes between them.
// A rule of the project: one variant for each key, and no key beside the digits.
#[derive(Clone, Copy)]
pub enum Line<'a> {
    Number(Digits<'a>),
    Marks(Digits<'a>),
    Look(Digits<'a>),
    Lane(Digits<'a>),
    Tail(Digits<'a>),
    Head(Digits<'a>),
    Side(Digits<'a>),
}

impl<'a> Line<'a> {
    // The value, as a part of the text.
    pub fn digits(self) -> Digits<'a>
        ensures { result ≡ digits_of self.entry }
    {
        match self {
            Line::Number(d)
            | Line::Marks(d)
            | Line::Look(d)
            | Line::Lane(d)
            | Line::Tail(d)
            | Line::Head(d)
            | Line::Side(d) => d,
        }
    }
}
