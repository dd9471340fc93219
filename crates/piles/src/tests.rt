use super::*;
use frames::frame::Frame;
use frames::setting::SettingFault;
use objectives::objective::Objective;
use std::test::Fail;

fn frame(marks: u64, look: u8, lane: u8) -> Frame {
    Frame {
        number: 1,
        marks,
        look,
        lane,
        ..Frame::default()
    }
}

// Look 0 is like view 0 by 300 and view 1 by 200, look 1 by 100 and 500; the table ends there.
pub(crate) fn likenesses() -> [u16; 66] {
    let mut table = [0; 66];
    table[..2].copy_from_slice(&[300, 200]);
    table[64..].copy_from_slice(&[100, 500]);
    table
}

// Lane 0 has the steps 7 and 3, lane 1 the steps 5, 5 and 1.
pub(crate) fn steps() -> [u32; 512] {
    let mut steps = [0; 512];
    steps[..2].copy_from_slice(&[7, 3]);
    steps[8..11].copy_from_slice(&[5, 5, 1]);
    steps
}

// Class 0 weighs 10, class 1 weighs 20.
pub(crate) fn weights() -> [u32; 64] {
    let mut weights = [0; 64];
    weights[..2].copy_from_slice(&[10, 20]);
    weights
}

// At most 600 of likeness, with the classes and the steps.
pub(crate) fn pile_by_hand(table: &[u16]) -> Result<Pile<'_>, SettingFault> {
    let coverage = Coverage::new(&weights())?;
    Ok(pile(table, 600, coverage, ConcaveCounts::new(&steps())?))
}

#[test]
fn gains_by_hand(rt: HostRuntime) -> Result<(), Fail> {
    let table = likenesses();
    let mut p = pile_by_hand(&table)?;
    let a = frame(1, 0, 0);
    let b = frame(3, 1, 1);
    // 300 + 200 of 600, class 0, and the first step of lane 0
    assert_eq!(rt; p.gain(&a), 517);
    p.add(&a);
    // 300 more, of which 100 fit, class 1, and the first step of lane 1
    assert_eq!(rt; p.gain(&b), 125);
    p.add(&b);
    // the second steps of the lanes; a lane and a look that the tables do not have
    assert_eq!(rt; p.gain(&a), 3);
    assert_eq!(rt; p.gain(&b), 5);
    assert_eq!(rt; p.gain(&frame(0, 9, 70)), 0);
    p.reset();
    // 100 + 500 of 600, classes 0 and 1, and the first step of lane 1
    assert_eq!(rt; p.gain(&b), 635);
    Ok(())
}

#[test]
fn no_value_above_the_highest(rt: HostRuntime) -> Result<(), Fail> {
    let table = likenesses();
    let mut p = pile(
        &table,
        600,
        Coverage::new(&[67_108_863; 64])?,
        ConcaveCounts::new(&steps())?,
    );
    let all = frame(u64::MAX, 0, 0);
    assert_eq!(rt; p.gain(&all), 4_294_967_295);
    p.add(&all);
    assert_eq!(rt; p.gain(&all), 0);
    Ok(())
}
