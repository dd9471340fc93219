// The lanes of the line are numbered from 0: the highest is one below this.
pub const LANES: usize = 64;

// One frame of the camera: its number, the classes it shows, its row in the table of likenesses, its lane, the two
// stations it joins, and its side of the line.
#[derive(Clone, Copy, PartialEq, Eq, Debug, Default)]
pub struct Frame {
    pub number: u32,
    pub marks: u64,
    pub look: u8,
    pub lane: u8,
    pub tail: u8,
    pub head: u8,
    pub side: u8,
}
