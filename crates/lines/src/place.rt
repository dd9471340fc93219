// A record's place in a text: its number, from 1, and the byte where it starts.
#[derive(Clone, Copy)]
pub struct Place {
    pub record: usize,
    pub start: usize,
}
