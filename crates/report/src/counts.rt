// How many frames may be kept, are kept, were accepted and were taken in since the last clear; the sum of the kept
// gains, and of all accepted ones.
#[derive(Clone, Copy, PartialEq, Eq, Debug)]
pub struct Counts {
    pub size: u32,
    pub kept: u32,
    pub took: u32,
    pub seen: u32,
    pub gain: u64,
    pub told: u64,
}
