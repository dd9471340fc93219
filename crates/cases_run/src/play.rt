// What the cases share: a frame, a record, a picker as the program's, and calls with the answers that they should have.
use frames::frame::Frame;
use kept::size::Size;
use matroids::matroid::Matroid;
use matroids::partition::PartitionMatroid;
use objectives::coverage::Coverage;
use objectives::objective::Objective;
use picker::picker::Picker;
use runs::call::{Answer, Call};
use runs::run::carry_out;
use spots::fault::Fault;
use std::process::Abort;
use std::test::*;

// 66 bytes; the lines start at the bytes 0, 8, 31, 38, 45, 52 and 59.
pub(crate) const RECORD: &[u8] =
    b"frame=1\nmarks=0000000000000003\nlook=0\nlane=0\ntail=0\nhead=0\nside=0\n";

// A frame by its marks and lane.
pub(crate) fn shot(marks: u64, lane: u8) -> Frame {
    Frame {
        number: 1,
        marks,
        lane,
        ..Frame::default()
    }
}

// Size 2, the weights 1 to 6 for the first classes, and one frame for each lane.
pub(crate) fn opened() -> Result<Picker<Coverage, PartitionMatroid>, Fail> {
    let mut weights = [0; 64];
    weights[..6].copy_from_slice(&[1, 2, 3, 4, 5, 6]);
    let size = Size::new(2)?;
    Ok(Picker::open(
        size,
        Coverage::new(&weights)?,
        PartitionMatroid::new(&[1; 64])?,
    ))
}

// The first n bytes.
pub(crate) fn front(s: &[u8], n: usize) -> &[u8] {
    &s[..n.min(s.len())]
}

// All that is seen of a picker: its counts and its kept frames with their gains, as they are printed.
pub(crate) fn seen_of<W: Objective, R: Matroid>(picker: &Picker<W, R>) -> Result<[u8; 512], Fail> {
    let mut sheet = [0; 512];
    picker.print(&mut sheet)?;
    Ok(sheet)
}

// Whether a call with that answer leaves the picker as it was: a look-up, the counts, a print-out, a declined offer, and a
// text that was refused whole or stopped at its first record.
fn changes_nothing(answer: &Answer) -> bool {
    match answer {
        Answer::Offered(Err(_)) | Answer::Looked(_) | Answer::Counted(_) | Answer::Printed(_) =>
            true,
        Answer::Texted(Err(fault)) => fault.spot().record <= 1,
        Answer::Offered(Ok(_)) | Answer::Texted(Ok(_)) | Answer::Cleared => false,
    }
}

// Makes the calls in turn, each with the answer that it should have.
pub(crate) fn play<W: Objective, R: Matroid>(
    rt: &impl Abort,
    picker: &mut Picker<W, R>,
    steps: &[(Call<'_>, Answer)],
) -> Result<(), Fail> {
    for (call, due) in steps {
        let before = seen_of(picker)?;
        assert_eq!(rt; carry_out(picker, call, &mut []), *due);
        let after = seen_of(picker)?;
        assert!(rt; !changes_nothing(due) || after == before);
    }
    Ok(())
}
