// Settings that are refused, each with its index, and what was set before stays.
use crate::play::shot;
use concave::counts::ConcaveCounts;
use frames::refusal::Refusal;
use frames::setting::SettingFault;
use laminar::laminar::LaminarMatroid;
use matroids::matroid::Matroid;
use matroids::partition::PartitionMatroid;
use objectives::coverage::Coverage;
use objectives::objective::Objective;
use operations::truncation::Truncation;
use std::process::Abort;
use std::test::*;

fn refused(refusal: Refusal, index: usize) -> Result<(), SettingFault> {
    Err(SettingFault { refusal, index })
}

#[test]
fn weights(rt: HostRuntime) -> Result<(), Fail> {
    let mut coverage = Coverage::new(&[2; 64])?;
    coverage.add(&shot(1, 0));
    let mut heavy = [2; 64];
    heavy[5] = 67_108_864;
    assert_eq!(rt; coverage.set(&[2; 63]), refused(Refusal::Miscount, 0));
    assert_eq!(rt; coverage.set(&[2; 65]), refused(Refusal::Miscount, 0));
    assert_eq!(rt; coverage.set(&heavy), refused(Refusal::Over, 5));
    // class 0 is covered still
    assert_eq!(rt; coverage.gain(&shot(3, 0)), 2);
    heavy[5] = 67_108_863;
    assert_eq!(rt; coverage.set(&heavy), Ok(()));
    assert_eq!(rt; coverage.gain(&shot(3, 0)), 4);
    Ok(())
}

#[test]
fn steps(rt: HostRuntime) -> Result<(), Fail> {
    let mut steps = [0; 512];
    steps[8..10].copy_from_slice(&[5, 3]);
    let mut counts = ConcaveCounts::new(&steps)?;
    counts.add(&shot(0, 1));
    assert_eq!(rt; counts.set(&steps[0..511]), refused(Refusal::Miscount, 0));
    steps[9] = 6;
    assert_eq!(rt; counts.set(&steps), refused(Refusal::Rising, 9));
    // above the highest, and above the step before it
    steps[9] = 8_388_608;
    assert_eq!(rt; counts.set(&steps), refused(Refusal::Over, 9));
    // the next is the second step of lane 1 still
    assert_eq!(rt; counts.gain(&shot(0, 1)), 3);
    steps[9] = 5;
    assert_eq!(rt; counts.set(&steps), Ok(()));
    assert_eq!(rt; counts.gain(&shot(0, 1)), 5);
    Ok(())
}

// Two frames of lane 0 stand together, and three do not.
fn at_most_two<R: Matroid>(rt: &impl Abort, matroid: &R) -> Result<(), Fail> {
    let frames = [shot(0, 0); 3];
    assert!(rt; matroid.independent(&frames, 0b011) && !matroid.independent(&frames, 0b111));
    Ok(())
}

#[test]
fn caps(rt: HostRuntime) -> Result<(), Fail> {
    let mut matroid = PartitionMatroid::new(&[2; 64])?;
    let mut high = [1; 64];
    high[63] = 49;
    assert_eq!(rt; matroid.set(&[1; 63]), refused(Refusal::Miscount, 0));
    assert_eq!(rt; matroid.set(&high), refused(Refusal::Over, 63));
    at_most_two(&rt, &matroid)
}

#[test]
fn most(rt: HostRuntime) -> Result<(), Fail> {
    let below = PartitionMatroid::new(&[48; 64])?;
    let mut matroid = Truncation::new(2, below)?;
    assert_eq!(rt; matroid.set(49), refused(Refusal::Over, 0));
    at_most_two(&rt, &matroid)
}

#[test]
fn trees(rt: HostRuntime) -> Result<(), Fail> {
    let mut caps = [48; 96];
    caps[64] = 2;
    let mut parents = [255; 96];
    parents[0] = 64;
    let mut matroid = LaminarMatroid::new(&caps, &parents)?;
    caps[64] = 1;
    assert_eq!(rt;
        matroid.set(&caps[0..95], &parents),
        refused(Refusal::Miscount, 0)
    );
    assert_eq!(rt;
        matroid.set(&caps, &parents[0..95]),
        refused(Refusal::Miscount, 0)
    );
    // a box may not hold itself, and all caps come before all parents
    parents[64] = 64;
    assert_eq!(rt;
        matroid.set(&caps, &parents),
        refused(Refusal::BadParent, 64)
    );
    caps[95] = 49;
    assert_eq!(rt; matroid.set(&caps, &parents), refused(Refusal::Over, 95));
    at_most_two(&rt, &matroid)
}
