// A picker of one place over a pile of objectives and a pile of matroids.
use crate::matroid_tests::matroid_pile;
use crate::tests::{likenesses, pile_by_hand};
use exchange::outcome::Outcome;
use frames::frame::Frame;
use kept::size::Size;
use picker::picker::Picker;
use report::counts::Counts;
use std::test::Fail;

const DIGEST: &[u8] =
    b"size=1\nkept=1\ntook=2\nseen=4\ngain=513\ntold=520\nplace=0\nworth=513\nframe=1\nmarks=0000000000000001\nlook=0\nlane=0\ntail=1\nhead=2\nside=0\n";

// Frames of one number, each of them offered once.
fn offered() -> [Frame; 4] {
    let blank = Frame {
        number: 1,
        ..Frame::default()
    };
    [
        Frame {
            look: 9,
            side: 1,
            ..blank
        },
        Frame {
            marks: 1,
            tail: 1,
            head: 2,
            ..blank
        },
        Frame {
            marks: 3,
            look: 1,
            lane: 1,
            tail: 2,
            head: 3,
            ..blank
        },
        Frame {
            marks: 2,
            look: 1,
            lane: 1,
            tail: 4,
            head: 4,
            ..blank
        },
    ]
}

#[test]
fn picked_by_hand(rt: HostRuntime) -> Result<(), Fail> {
    let table = likenesses();
    let mut picker = Picker::open(Size::new(1)?, pile_by_hand(&table)?, matroid_pile()?);
    let [first, second, third, fourth] = offered();
    // the first step of lane 0
    assert_eq!(rt;
        picker.offer(first),
        Ok(Outcome::Kept { place: 0, gain: 7 })
    );
    // 300 + 200 of 600, class 0, and the second step of lane 0
    let swapped = Outcome::Swapped {
        place: 0,
        gain: 513,
        left: first,
    };
    assert_eq!(rt; picker.offer(second), Ok(swapped));
    // 300 more, of which 100 fit, class 1, and the first step of lane 1
    let light = Outcome::Light {
        place: 0,
        gain: 125,
        lost_to: 513,
    };
    assert_eq!(rt; picker.offer(third), Ok(light));
    // a frame that joins a station to itself can stand nowhere
    assert_eq!(rt; picker.offer(fourth), Ok(Outcome::Barred { gain: 125 }));
    let counts = Counts {
        size: 1,
        kept: 1,
        took: 2,
        seen: 4,
        gain: 513,
        told: 520,
    };
    assert_eq!(rt; picker.counts(), counts);
    Ok(())
}

// The same four frames, and the digest of what is kept.
#[test]
fn printed_by_hand(rt: HostRuntime) -> Result<(), Fail> {
    let table = likenesses();
    let mut picker = Picker::open(Size::new(1)?, pile_by_hand(&table)?, matroid_pile()?);
    for x in offered() {
        assert!(rt; picker.offer(x).is_ok());
    }
    let mut sheet = [0; 256];
    assert_eq!(rt; picker.print(&mut sheet), Ok(DIGEST.len()));
    assert!(rt; sheet.starts_with(DIGEST));
    Ok(())
}
