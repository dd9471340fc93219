ghost use Rattle.std.specs.Prelude.{◌≡◌, nat_eq};

use crate::picker::Picker;

// The most frames of a shift.
const SHIFT: u32 = 1_000_000;

impl<W, R> Picker<W, R> {
    // Whether no further frame of the shift is taken in.
    pub(crate) fn is_full(&self) -> bool
        ensures { result ≡ nat_eq self.now.seen 1000000 }
    {
        self.seen == SHIFT
    }
}
