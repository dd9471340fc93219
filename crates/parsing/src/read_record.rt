ghost use Rattle.std.specs.Prelude.{ℕ};
ghost use Rattle.std.specs.Result.{MatchResult};
ghost use Rattle.lines.specs.Lines.{Unread};
ghost use Rattle.parsing.specs.Records.{LinePassed, RecordRead, RecordMeans};

use faults::fault::RecordFault;
use frames::frame::Frame;
use lines::place::Place;
use lines::read_line::read_line;
use records::key::Key;
use spots::fault::LineFault;

// Reads the record that starts at byte `at` and is the text's record number `record`: its frame, and the byte behind it.
pub fn read_record(text: &[u8], at: usize, record: usize) -> Result<(Frame, usize), RecordFault>
    ensures reads { RecordRead text.now at «record» result }
    ensures means { RecordMeans text.now at result }
{
    let place = Place { record, start: at };
    let mut lines = Lines { text, at, place };
    let frame = Frame {
        number: lines.value(Key::Number)? as u32,
        marks: lines.value(Key::Marks)?,
        look: lines.value(Key::Look)? as u8,
        lane: lines.value(Key::Lane)? as u8,
        tail: lines.value(Key::Tail)? as u8,
        head: lines.value(Key::Head)? as u8,
        side: lines.value(Key::Side)? as u8,
    };
    Ok((frame, lines.at))
}

// The lines of the record at `place`, read in turn: the next one starts at byte `at` of the text.
#[derive(Drop)]
struct Lines<'a> {
    text: &'a [u8],
    at: usize,
    place: Place,
}

impl Lines<'_> {
    // The value of the next line, where `key` is due.
    // The number is never none: only where a value is written as its kind is, the line is read.
    #[inline(always)]
    fn value(&mut self, key: Key) -> Result<u64, LineFault>
        ensures { MatchResult result (λ v. LinePassed key self.old v self.new) (λ f. Unread key self.old.text.now self.old.at self.old.place.«record» self.old.place.start f) }
    {
        let digits = read_line(self.text, self.at, key, self.place)?.digits();
        self.at = digits.at + digits.bytes.len() + 1;
        Ok(digits.number.unwrap())
    }
}
