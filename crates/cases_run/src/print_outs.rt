// Print-outs into buffers one byte short, exact and larger.
use crate::play::{RECORD, front, opened, shot};
use frames::refusal::Refusal;
use report::print::{print_fault, print_record};
use std::process::Abort;
use std::test::*;

// Two whole records, and a third with a mark that is no digit.
const TEXT: &[u8] =
    b"frame=1\nmarks=0000000000000003\nlook=0\nlane=0\ntail=0\nhead=0\nside=0\nframe=2\nmarks=0000000000000030\nlook=255\nlane=9\ntail=10\nhead=99\nside=1\nframe=3\nmarks=000000000000000g\n";

const DIGEST: &[u8] =
    b"size=2\nkept=2\ntook=2\nseen=2\ngain=14\ntold=14\nplace=0\nworth=3\nframe=1\nmarks=0000000000000003\nlook=0\nlane=0\ntail=0\nhead=0\nside=0\nplace=1\nworth=11\nframe=2\nmarks=0000000000000030\nlook=255\nlane=9\ntail=10\nhead=99\nside=1\n";

const FAULT: &[u8] = b"fault=6\nrecord=3\nline=2\nbyte=150\n";

// The sheet begins with the text, and each byte behind it is a dot.
fn holds(sheet: &[u8], text: &[u8]) -> bool {
    sheet
        .strip_prefix(text)
        .is_some_and(|behind| behind.iter().all(|b| *b == b'.'))
}

fn prints<F: Fn(&mut [u8]) -> Result<usize, Refusal> + Drop>(
    rt: &impl Abort,
    print: F,
    text: &[u8],
) -> Result<(), Fail>
    requires { F.IsAlwaysCallable print }
{
    let n = text.len();
    assert!(rt; n > 0);
    // the room, the answer, and how many bytes are written
    let cases = [
        (n - 1, Err(Refusal::ShortSheet), 0),
        (n, Ok(n), n),
        (512, Ok(n), n),
    ];
    for (room, answer, written) in cases {
        let mut sheet = [b'.'; 512];
        let end = room.min(sheet.len());
        assert_eq!(rt; print(&mut sheet[..end]), answer);
        assert!(rt; holds(&sheet, front(text, written)));
    }
    Ok(())
}

// The text is stopped in its third record, and the two before it are taken in.
#[test]
fn print_outs_at_three_lengths(rt: HostRuntime) -> Result<(), Fail> {
    let mut shift = opened()?;
    let Err(fault) = shift.offer_text(TEXT) else {
        return Err(Fail::new("no fault"));
    };
    prints(&rt, |out| shift.print(out), DIGEST)?;
    prints(&rt, |out| print_record(&shot(3, 0), out), RECORD)?;
    prints(&rt, |out| print_fault(&fault, out), FAULT)
}
