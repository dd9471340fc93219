ghost use Rattle.std.specs.Prelude.{◌≡◌};
ghost use Rattle.frames.specs.declared.refusal.Refusal.{Refusal as RefusalOf};
ghost use Rattle.spots.specs.declared.fault.Spot.{Spot as SpotOf};

use frames::refusal::Refusal;

// Where a text stopped: the record and the line, counted from 1, and the byte, counted from 0.
#[derive(Clone, Copy, PartialEq, Eq, Debug, Default)]
pub struct Spot {
    pub record: usize,
    pub line: usize,
    pub byte: usize,
}

// Why a line cannot be read.
#[derive(Clone, Copy, PartialEq, Eq, Debug)]
pub enum LineFault {
    WrongKey(Spot),
    BadForm(Spot),
    Over(Spot),
    Cut(Spot),
}

// What a text was stopped by: why, and where.
pub trait Fault {
    ghost refused_as: { Self → RefusalOf };

    ghost stopped_at: { Self → SpotOf };

    // Why it was refused.
    fn refusal(self) -> Refusal
        ensures { result ≡ refused_as self };

    // Where the text stopped.
    fn spot(self) -> Spot
        ensures { result ≡ stopped_at self };
}
