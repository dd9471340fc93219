// Each fault in each line of a record, with the record, the line and the byte that it names.
use crate::play::{RECORD, front, opened, seen_of};
use spots::fault::{Fault, Spot};
use std::alloc::Global;
use std::process::Abort;
use std::test::Fail;

// A damaged line, which stands behind a whole record and the whole lines of a second one that start before `start`, and
// the refusal's number, as users are told it, and the byte that are due.
#[derive(Clone, Copy)]
struct Row {
    line: usize,
    start: usize,
    damaged: &'static [u8],
    // as a number: the tests hold the numbers
    refusal: u8,
    byte: usize,
}

fn behind(line: usize, start: usize, damaged: &'static [u8], refusal: u8, byte: usize) -> Row {
    Row {
        line,
        start,
        damaged,
        refusal,
        byte,
    }
}

// The first byte that is not the key's.
fn wrong_keys() -> [Row; 7] {
    [
        behind(1, 0, b"frane=1\n", 5, 69),
        behind(2, 8, b"mark=0000000000000003\n", 5, 78),
        behind(3, 31, b"Look=0\n", 5, 97),
        behind(4, 38, b"lane:0\n", 5, 108),
        behind(5, 45, b"head=0\n", 5, 111),
        behind(6, 52, b"heap=0\n", 5, 121),
        behind(7, 59, b"\n", 5, 125),
    ]
}

// The value's start. The last value is too long for a tail, so that its line feed is not reached.
fn bad_forms() -> [Row; 8] {
    [
        behind(1, 0, b"frame=01\n", 6, 72),
        behind(2, 8, b"marks=000000000000000A\n", 6, 80),
        behind(3, 31, b"look=007\n", 6, 102),
        behind(4, 38, b"lane=-1\n", 6, 109),
        behind(5, 45, b"tail=\n", 6, 116),
        behind(6, 52, b"head=1 \n", 6, 123),
        behind(7, 59, b"side=00\n", 6, 130),
        behind(5, 45, b"tail=0255\n", 6, 116),
    ]
}

// The value's start. Sixteen hexadecimal digits hold no number above the highest marks.
fn overs() -> [Row; 6] {
    [
        behind(1, 0, b"frame=4294967296\n", 7, 72),
        behind(3, 31, b"look=256\n", 7, 102),
        behind(4, 38, b"lane=64\n", 7, 109),
        behind(5, 45, b"tail=256\n", 7, 116),
        behind(6, 52, b"head=999\n", 7, 123),
        behind(7, 59, b"side=2\n", 7, 130),
    ]
}

// The record's start.
fn cuts() -> [Row; 7] {
    [
        behind(1, 0, b"frame=1", 8, 66),
        behind(2, 8, b"marks=00", 8, 66),
        behind(3, 31, b"look=", 8, 66),
        behind(4, 38, b"la", 8, 66),
        behind(5, 45, b"tail=255", 8, 66),
        behind(6, 52, b"", 8, 66),
        behind(7, 59, b"side=0", 8, 66),
    ]
}

// The text is stopped there, and the picker stands as after the first record alone.
fn stops(rt: &impl Abort, alloc: Global, rows: &[Row]) -> Result<(), Fail> {
    let mut first = opened()?;
    assert_eq!(rt; first.offer_text(RECORD), Ok(1));
    for row in rows {
        let mut text = Vec::new(alloc);
        text.extend_from_slice(RECORD)?;
        text.extend_from_slice(front(RECORD, row.start))?;
        text.extend_from_slice(row.damaged)?;
        let mut picker = opened()?;
        let Err(fault) = picker.offer_text(text.as_slice()) else {
            return Err(Fail::new("no fault"));
        };
        assert_eq!(rt; fault.refusal().number(), row.refusal);
        let spot = Spot {
            record: 2,
            line: row.line,
            byte: row.byte,
        };
        assert_eq!(rt; fault.spot(), spot);
        let (seen, due) = (seen_of(&picker)?, seen_of(&first)?);
        assert!(rt; seen == due);
    }
    Ok(())
}

#[test]
fn faults_of_each_line(rt: HostRuntime) -> Result<(), Fail> {
    stops(&rt, rt.alloc(), &wrong_keys())?;
    stops(&rt, rt.alloc(), &bad_forms())?;
    stops(&rt, rt.alloc(), &overs())?;
    stops(&rt, rt.alloc(), &cuts())
}
