ghost use Rattle.std.specs.Prelude.{◌≡◌};
ghost use Rattle.lines.specs.Lines.{Judged};
ghost use Rattle.records.specs.Of.{key_of, digits_of};

use frames::frame::LANES;
use records::digits::Digits;
use records::key::Key;
use records::line::Line;
use spots::fault::{LineFault, Spot};

// The line of `key` with its digits.
#[inline(always)]
pub(crate) fn taken(key: Key, digits: Digits<'_>) -> Line<'_>
    ensures kind { key_of result ≡ key }
    ensures digits { digits_of result ≡ digits.entry }
{
    match key {
        Key::Number => Line::Number(digits),
        Key::Marks => Line::Marks(digits),
        Key::Look => Line::Look(digits),
        Key::Lane => Line::Lane(digits),
        Key::Tail => Line::Tail(digits),
        Key::Head => Line::Head(digits),
        Key::Side => Line::Side(digits),
    }
}

// Judges a value that stands at `spot` by its form, and then by the highest number of its kind.
#[inline(always)]
pub(crate) fn judge(line: Line<'_>, spot: Spot) -> Result<Line<'_>, LineFault>
    ensures { Judged line.entry spot result }
{
    let number = line.digits().number;
    let over = Err(LineFault::Over(spot));
    // a rule of the project: one match on the kind of line, with guards for the form and the range
    match line {
        _ if number.is_none() => Err(LineFault::BadForm(spot)),
        Line::Number(_) if number > Some(4_294_967_295) => over,
        Line::Look(_) | Line::Tail(_) | Line::Head(_) if number > Some(255) => over,
        Line::Lane(_) if number >= Some(LANES as u64) => over,
        Line::Side(_) if number > Some(1) => over,
        _ => Ok(line),
    }
}
