ghost use Rattle.std.specs.Prelude.{◌≤◌, length};

// The records of a text, in turn: `count` were read, and the next one starts at byte `at`.
#[derive(Clone, Copy)]
pub struct Records<'a> {
    pub(crate) text: &'a [u8],
    pub(crate) at: usize,
    pub(crate) count: usize,
    ghost within: { at ≤ length text.now },
    ghost few: { count ≤ at },
}
