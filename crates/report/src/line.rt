ghost use Rattle.std.specs.Prelude.{◌≡◌, ◌++◌};
ghost use Rattle.records.specs.Format.{shown};
ghost use Rattle.report.specs.Digest.{decimal_line, count_lines, place_lines, fault_lines};
ghost use Rattle.report.specs.Lines.{written, line_text, lines_text};

use crate::counts::Counts;
use crate::value::Value;
use crate::written::Written;
use faults::fault::TextFault;
use frames::entry::Entry;
use frames::frame::Frame;
use records::key::Key;
use spots::fault::Fault;

// A line of a print-out: its key with the `=`, and its value.
#[derive(Clone, Copy)]
pub(crate) struct Line {
    key: &'static [u8],
    value: Value,
}

impl Line {
    fn decimal(key: &'static [u8], n: u64) -> Line
        ensures { line_text result ≡ decimal_line key.now n }
    {
        Line {
            key,
            value: Value::Decimal(n),
        }
    }

    // The key, the value and the line feed.
    fn parts(&self) -> (&'static [u8], (Value, &'static [u8]))
        ensures { result.0.now ++ (written result.1.0 ++ result.1.1.now) ≡ line_text self.now }
    {
        (self.key, (self.value, b"\n"))
    }
}

impl Written for Line {
    ghost text = { line_text };

    fn room_after(&self, room: usize) -> Option<usize> {
        self.parts().room_after(room)
    }

    fn put(&self, out: &mut [u8]) -> Option<usize> {
        self.parts().put(out)
    }
}

pub(crate) fn record_lines(x: &Frame) -> [Line; 7]
    ensures { lines_text result ≡ shown x.now }
{
    [
        Line::decimal(Key::Number.bytes(), x.number as u64),
        Line {
            key: Key::Marks.bytes(),
            value: Value::Hexadecimal(x.marks),
        },
        Line::decimal(Key::Look.bytes(), x.look as u64),
        Line::decimal(Key::Lane.bytes(), x.lane as u64),
        Line::decimal(Key::Tail.bytes(), x.tail as u64),
        Line::decimal(Key::Head.bytes(), x.head as u64),
        Line::decimal(Key::Side.bytes(), x.side as u64),
    ]
}

#[tactic(auto, unfolding(crate::specs::Digest::count_lines))]
pub(crate) fn count_lines(counts: &Counts) -> [Line; 6]
    ensures { lines_text result ≡ count_lines counts.now }
{
    [
        Line::decimal(b"size=", counts.size as u64),
        Line::decimal(b"kept=", counts.kept as u64),
        Line::decimal(b"took=", counts.took as u64),
        Line::decimal(b"seen=", counts.seen as u64),
        Line::decimal(b"gain=", counts.gain),
        Line::decimal(b"told=", counts.told),
    ]
}

// The place and the gain, and then the record.
#[tactic(auto, unfolding(crate::specs::Digest::place_lines))]
pub(crate) fn place_lines(place: usize, entry: &Entry) -> ([Line; 2], [Line; 7])
    ensures { lines_text result.0 ++ lines_text result.1 ≡ place_lines place entry.now }
{
    let place_and_worth = [
        Line::decimal(b"place=", place as u64),
        Line::decimal(b"worth=", entry.gain as u64),
    ];
    (place_and_worth, record_lines(&entry.frame))
}

#[tactic(auto, unfolding(crate::specs::Digest::fault_lines))]
pub(crate) fn fault_lines(fault: &TextFault) -> [Line; 4]
    ensures { lines_text result ≡ fault_lines fault.now }
{
    let spot = fault.spot();
    [
        Line::decimal(b"fault=", fault.refusal().number() as u64),
        Line::decimal(b"record=", spot.record as u64),
        Line::decimal(b"line=", spot.line as u64),
        Line::decimal(b"byte=", spot.byte as u64),
    ]
}
