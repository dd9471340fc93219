// Piles of matroids, asked about a few lists whose answers were worked out by hand.
use frames::frame::Frame;
use frames::setting::SettingFault;
use graphic::graphic::GraphicMatroid;
use laminar::laminar::LaminarMatroid;
use matroids::matroid::Matroid;
use operations::direct_sum::DirectSum;
use operations::truncation::Truncation;
use std::test::Fail;

// Of side 0, joining two stations.
fn edge(tail: u8, head: u8) -> Frame {
    Frame {
        number: 1,
        tail,
        head,
        ..Frame::default()
    }
}

// Of side 1, on a lane; its stations are one.
fn on_lane(lane: u8) -> Frame {
    Frame {
        number: 2,
        lane,
        side: 1,
        ..Frame::default()
    }
}

// At most four frames: on side 0 no even part, on side 1 at most two from lanes 0 and 1 together.
pub(crate) fn matroid_pile() -> Result<
    Truncation<DirectSum<GraphicMatroid, LaminarMatroid>>,
    SettingFault,
> {
    let mut caps = [48; 96];
    caps[64] = 2;
    let mut parents = [255; 96];
    parents[0] = 64;
    parents[1] = 64;
    let second = LaminarMatroid::new(&caps, &parents)?;
    Truncation::new(
        4,
        DirectSum {
            first: GraphicMatroid,
            second,
        },
    )
}

#[test]
fn pile_answers(rt: HostRuntime) -> Result<(), Fail> {
    let m = matroid_pile()?;
    let list = [
        edge(1, 2),
        edge(2, 3),
        edge(3, 1),
        edge(9, 9),
        on_lane(0),
        on_lane(1),
        on_lane(0),
        on_lane(5),
    ];
    let answers = [
        // nothing; a path; a triangle; a loop
        (0, true),
        (0b0000_0011, true),
        (0b0000_0111, false),
        (0b0000_1000, false),
        // as many as the box of lanes 0 and 1 holds; one more
        (0b0011_0000, true),
        (0b0111_0000, false),
        // four of both sides; five
        (0b1011_0001, true),
        (0b1011_0011, false),
        // places past the end
        (0b1111_0000_0000_0011, true),
    ];
    for (places, answer) in answers {
        assert_eq!(rt; m.independent(&list, places), answer);
    }
    Ok(())
}
