ghost use Rattle.std.specs.Prelude.{Some};
ghost use Rattle.serving.specs.Refusals.{run_text};

use std::error::Error;
use std::fmt;

// Why a run is refused, each with the number by which users know it, behind the refusals of `frames::refusal`.
#[derive(Clone, Copy, PartialEq, Eq, Debug)]
pub enum RunRefusal {
    // the bytes are no calls
    BadCalls = 13,
    // the answers due have no room
    ShortAnswers = 14,
}

impl fmt::Display for RunRefusal {
    ghost output = { λ r. Some (run_text r) };

    fn fmt<W: fmt::Write>(&self, f: &mut fmt::Formatter<W>) -> fmt::Result {
        f.write_str(match self {
            RunRefusal::BadCalls => "the bytes are not calls",
            RunRefusal::ShortAnswers => {
                "the buffer is shorter than the answers due, or these are 2^48 bytes or more"
            }
        })
    }
}

impl Error for RunRefusal {}
