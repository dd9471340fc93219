use frames::frame::Frame;

// What became of a frame that was taken in.
#[derive(Clone, Copy, PartialEq, Eq, Debug)]
pub enum Outcome {
    // passed: it adds nothing
    Empty,
    // kept in the next place
    Kept {
        place: usize,
        gain: u32,
    },
    // kept in the place of the frame that left
    Swapped {
        place: usize,
        gain: u32,
        left: Frame,
    },
    // passed: its gain is under twice the gain of the lightest place that it could take
    Light {
        place: usize,
        gain: u32,
        lost_to: u32,
    },
    // passed: it can take no place
    Barred {
        gain: u32,
    },
}
