// A shift of a million frames.
use crate::play::{RECORD, opened, play, shot};
use exchange::outcome::Outcome;
use faults::fault::{RecordFault, TextFault};
use frames::refusal::Refusal;
use matroids::partition::PartitionMatroid;
use objectives::coverage::Coverage;
use picker::picker::Picker;
use report::counts::Counts;
use runs::call::{Answer, Call};
use std::process::Abort;
use std::test::*;

const TWO_RECORDS: &[u8] =
    b"frame=1\nmarks=0000000000000004\nlook=0\nlane=1\ntail=0\nhead=0\nside=0\nframe=2\nmarks=0000000000000030\nlook=0\nlane=2\ntail=0\nhead=0\nside=0\n";

// Frames that add nothing.
fn blanks(
    rt: &impl Abort,
    picker: &mut Picker<Coverage, PartitionMatroid>,
    n: u32,
) -> Result<(), Fail> {
    for _ in 0..n {
        assert_eq!(rt; picker.offer(shot(0, 0)), Ok(Outcome::Empty));
    }
    Ok(())
}

fn full(record: usize, byte: usize) -> Result<usize, TextFault> {
    Err(TextFault::Record(RecordFault::ShiftFull { record, byte }))
}

#[test]
fn millionth_frame_is_the_last(rt: HostRuntime) -> Result<(), Fail> {
    let mut picker = opened()?;
    let kept = (
        Call::Offer(shot(3, 0)),
        Answer::Offered(Ok(Outcome::Kept { place: 0, gain: 3 })),
    );
    play(&rt, &mut picker, &[kept])?;
    blanks(&rt, &mut picker, 999_998)?;
    let by_frames = [
        (Call::Offer(shot(0, 0)), Answer::Offered(Ok(Outcome::Empty))),
        (
            Call::Offer(shot(4, 1)),
            Answer::Offered(Err(Refusal::ShiftFull)),
        ),
        // the lane and the side are looked at first
        (
            Call::Offer(shot(4, 64)),
            Answer::Offered(Err(Refusal::Over)),
        ),
        (Call::Text(RECORD), Answer::Texted(full(1, 0))),
        (Call::Clear, Answer::Cleared),
        kept,
    ];
    play(&rt, &mut picker, &by_frames)?;
    blanks(&rt, &mut picker, 999_998)?;
    // the first of two records is the millionth frame
    let counts = Counts {
        size: 2,
        kept: 2,
        took: 2,
        seen: 1_000_000,
        gain: 6,
        told: 6,
    };
    let by_records = [
        (Call::Text(TWO_RECORDS), Answer::Texted(full(2, 66))),
        (Call::Counts, Answer::Counted(counts)),
        (Call::Clear, Answer::Cleared),
        (Call::Text(RECORD), Answer::Texted(Ok(1))),
    ];
    play(&rt, &mut picker, &by_records)
}
