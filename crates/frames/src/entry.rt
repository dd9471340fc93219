use crate::frame::Frame;

// The most frames that may be kept, whatever the settings.
pub const MOST_KEPT: usize = 48;

// A kept frame, and the gain it had when it was accepted.
#[derive(Clone, Copy, PartialEq, Eq, Debug, Default)]
pub struct Entry {
    pub frame: Frame,
    pub gain: u32,
}
