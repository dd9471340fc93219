ghost use Rattle.records.specs.Format.{longest};
ghost use Rattle.records.specs.Reading.{base_of, form_of};
ghost use Rattle.lines.specs.Lines.{Fronted, Ended};

use crate::due::Due;
use crate::number::{decimal, hexadecimal};
use records::key::Key;
use records::line_feed::line_feed;

impl Due {
    // What stands before the line feed of `rest`, which follows the key: how many bytes, and the number that they write.
    // The line feed is looked for by itself only where they are not written as values of the key are.
    #[inline(always)]
    pub(crate) fn value(self, rest: &[u8]) -> Option<(usize, Option<u64>)>
        ensures { Ended self.key rest.now result }
    {
        match self.written(rest) {
            Some((n, number)) => Some((n, Some(number))),
            None => line_feed(rest, self.longest()).map(|n| (n, None)),
        }
    }

    // The same where they are written as values of the key are.
    #[inline(always)]
    fn written(self, rest: &[u8]) -> Option<(usize, u64)>
        ensures { Fronted (form_of self.key) (base_of self.key) (longest self.key) rest.now result }
    {
        match self.key {
            Key::Marks => hexadecimal(rest),
            _ => decimal(rest, self.longest()),
        }
    }
}
