// The value of a line, as a part of the text that it was read from.
#[derive(Clone, Copy)]
pub struct Digits<'a> {
    // the bytes between the key and the line feed
    pub bytes: &'a [u8],
    // where they start in the text
    pub at: usize,
    // the number that they write, none where they are not written as values of their kind are
    pub number: Option<u64>,
}
