ghost use Rattle.std.specs.Prelude.{ℕ, ◌+◌, take};
ghost use Rattle.records.specs.Reading.{Fed};

// The place of the first line feed among the first bytes of `s`, at most `most` and one more.
pub fn line_feed(s: &[u8], most: usize) -> Option<usize>
    ensures { Fed (take (most + 1) s.now) result }
{
    s.iter()
        .take(most.saturating_add(1))
        .position(|b| *b == b'\n')
}
