// The same frame offered again.
use crate::play::{opened, play, shot};
use concave::counts::ConcaveCounts;
use exchange::outcome::Outcome;
use frames::entry::Entry;
use kept::size::Size;
use matroids::partition::PartitionMatroid;
use picker::picker::Picker;
use runs::call::{Answer, Call};
use std::test::*;

#[test]
fn offered_twice(rt: HostRuntime) -> Result<(), Fail> {
    // its classes are covered already
    let mut covered = opened()?;
    let x = shot(3, 0);
    let under_coverage = [
        (
            Call::Offer(x),
            Answer::Offered(Ok(Outcome::Kept { place: 0, gain: 3 })),
        ),
        (Call::Offer(x), Answer::Offered(Ok(Outcome::Empty))),
    ];
    play(&rt, &mut covered, &under_coverage)?;
    // it is one frame more on its lane, and gains the next step
    let mut steps = [0; 512];
    steps[..3].copy_from_slice(&[5, 3, 3]);
    let size = Size::new(2)?;
    let matroid = PartitionMatroid::new(&[48; 64])?;
    let mut counted = Picker::open(size, ConcaveCounts::new(&steps)?, matroid);
    let light = Outcome::Light {
        place: 1,
        gain: 3,
        lost_to: 3,
    };
    let under_steps = [
        (
            Call::Offer(x),
            Answer::Offered(Ok(Outcome::Kept { place: 0, gain: 5 })),
        ),
        (
            Call::Offer(x),
            Answer::Offered(Ok(Outcome::Kept { place: 1, gain: 3 })),
        ),
        (Call::Offer(x), Answer::Offered(Ok(light))),
        (
            Call::Look(0),
            Answer::Looked(Ok(Entry { frame: x, gain: 5 })),
        ),
        (
            Call::Look(1),
            Answer::Looked(Ok(Entry { frame: x, gain: 3 })),
        ),
    ];
    play(&rt, &mut counted, &under_steps)
}
