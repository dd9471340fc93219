// Short runs, worked out by hand.
use exports::opened::{capped_facility_laminar, concave_graphic, coverage_partition};
use exports::run::run;

// Class 0 weighs 100, class 1 weighs 50. The tests of each crate have their own.
fn weights() -> [u32; 64] {
    let mut weights = [0; 64];
    weights[..2].copy_from_slice(&[100, 50]);
    weights
}

fn covered(size: u32, weights: &[u32], calls: &[u8], answers: &mut [u8]) -> u64 {
    run(coverage_partition(size, weights, &[1; 64]), calls, answers)
}

// Frame 7 shows class 0, on lane 5; then the counts, place 0 and a clear.
#[test]
fn coverage_over_a_partition(rt: HostRuntime) {
    let calls = b"\x01\x07\0\0\0\x01\0\0\0\0\0\0\0\0\x05\x01\x02\0\x04\x03\0\0\0\0\x06";
    let mut answers = [9; 83];
    let ran = covered(2, &weights(), calls, &mut answers);
    assert_eq!(rt; ran, 82 * 65_536);
    let offered = b"\0\x01\0\x64\0\0\0\0\0\0\0\0\0\0\0\0\0\0\0\0\0\0\0\0\0\0\0\0";
    assert_eq!(rt; &answers[0..28], &offered[0..28]);
    let counts = b"\x02\0\0\0\x01\0\0\0\x01\0\0\0\x01\0\0\0\x64\0\0\0\0\0\0\0\x64\0\0\0\0\0\0\0";
    assert_eq!(rt; &answers[28..60], &counts[0..32]);
    let looked = b"\0\x64\0\0\0\x07\0\0\0\x01\0\0\0\0\0\0\0\0\x05\x01\x02\0\x09";
    assert_eq!(rt; &answers[60..83], &looked[0..23]);
}

// A call cut short, a short buffer, a size too high, a weight too high: the buffer stays.
#[test]
fn refused_runs(rt: HostRuntime) {
    let calls = b"\x01\x07\0\0\0\x01\0\0\0\0\0\0\0\0\x05\x01\x02\0";
    let mut short = [9; 27];
    let cut = &calls[0..17];
    assert_eq!(rt; covered(2, &weights(), cut, &mut short), 13);
    assert_eq!(rt; covered(2, &weights(), calls, &mut short), 14);
    assert_eq!(rt; covered(49, &weights(), calls, &mut short), 1 + 256);
    let mut heavy = weights();
    heavy[3] = 67_108_864;
    assert_eq!(rt;
        covered(2, &heavy, calls, &mut short),
        7 + 2 * 256 + 3 * 65_536
    );
    assert_eq!(rt; &short[0..27], &[9; 27][0..27]);
}

fn capped(parents: &[u32], answers: &mut [u8]) -> u64 {
    let calls =
        b"\x01\x01\0\0\0\x01\0\0\0\0\0\0\0\0\0\0\0\0\x01\x02\0\0\0\x02\0\0\0\0\0\0\0\x01\x01\0\0\0";
    run(
        capped_facility_laminar(2, &weights(), 120, &[1; 64], 1, &[48; 96], parents),
        calls,
        answers,
    )
}

// Class 0 and 64 views; then 20 of class 1 below the cap, and no second place. Box 5 may not lie in a lane.
#[test]
fn capped_coverage_and_facility_over_a_truncated_tree(rt: HostRuntime) {
    let mut parents = [255; 96];
    let mut answers = [9; 56];
    assert_eq!(rt; capped(&parents, &mut answers), 56 * 65_536);
    let offered = b"\0\x01\0\xa4\0\0\0\0\0\0\0";
    assert_eq!(rt; &answers[0..11], &offered[0..11]);
    let offered = b"\0\x03\0\x14\0\0\0\xa4\0\0\0";
    assert_eq!(rt; &answers[28..39], &offered[0..11]);
    parents[5] = 3;
    assert_eq!(rt; capped(&parents, &mut answers), 12 + 6 * 256 + 5 * 65_536);
}

fn joined(steps: &[u32], answers: &mut [u8]) -> u64 {
    let calls =
        b"\x01\x01\0\0\0\x03\0\0\0\0\0\0\0\0\0\x01\x02\0\x01\x02\0\0\0\0\0\0\0\0\0\0\0\0\0\x02\x01\0\x01\x03\0\0\0\0\0\0\0\0\0\0\0\0\0\0\0\x01";
    run(
        concave_graphic(3, steps, &weights(), &[1; 64]),
        calls,
        answers,
    )
}

// Both classes and the first step of lane 0; then the same stations joined again; then the other side. A step may not
// be above the one before it.
#[test]
fn concave_counts_and_coverage_over_two_sides(rt: HostRuntime) {
    let mut steps = [0; 512];
    steps[..2].copy_from_slice(&[9, 4]);
    let mut answers = [9; 84];
    assert_eq!(rt; joined(&steps, &mut answers), 84 * 65_536);
    let offered = b"\0\x01\0\x9f\0\0\0\0\0\0\0";
    assert_eq!(rt; &answers[0..11], &offered[0..11]);
    let offered = b"\0\x03\0\x04\0\0\0\x9f\0\0\0";
    assert_eq!(rt; &answers[28..39], &offered[0..11]);
    let offered = b"\0\x01\x01\x04\0\0\0\0\0\0\0";
    assert_eq!(rt; &answers[56..67], &offered[0..11]);
    steps[2] = 5;
    assert_eq!(rt; joined(&steps, &mut answers), 11 + 2 * 256 + 2 * 65_536);
}
