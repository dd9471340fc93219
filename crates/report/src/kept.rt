ghost use Rattle.report.specs.Digest.{places_from};

use crate::line::place_lines;
use crate::written::Written;
use frames::entry::Entry;

// The kept frames, each with its place and its gain. An entry does not know its place, so the loops are not an array's.
#[derive(Clone, Copy)]
pub(crate) struct Places<'a> {
    pub(crate) entries: &'a [Entry],
}

impl Written for Places<'_> {
    ghost text = { λ places. places_from 0 places.entries.now };

    fn room_after(&self, room: usize) -> Option<usize> {
        // no `try_fold`, as in `written.rt`
        let mut left = room;
        for (place, entry) in self.entries.iter().enumerate() {
            left = place_lines(place, entry).room_after(left)?;
        }
        Some(left)
    }

    fn put(&self, out: &mut [u8]) -> Option<usize> {
        // no `fold`, as in `written.rt`
        let mut at = 0;
        for (place, entry) in self.entries.iter().enumerate() {
            at += place_lines(place, entry).put(&mut out[at..])?;
        }
        Some(at)
    }
}
