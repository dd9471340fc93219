ghost use Rattle.std.specs.Prelude.{◌≡◌, ℕ, ◌-◌, ◌≤◌, List, ◌++◌, length};
ghost use Rattle.std.specs.List.{flat_map};
ghost use Rattle.std.specs.Option.{SomeIff};
ghost use Rattle.records.specs.Sheets.{over, Printed};

use frames::refusal::Refusal;

// What is written at the front of a sheet.
// No `Display`: a sheet that is too short stays as it was, so the room is asked for before a byte is written.
pub(crate) trait Written {
    // Its bytes.
    ghost text: { Self → List ℕ };

    // What is left of `room` bytes behind it, if it fits.
    fn room_after(&self, room: usize) -> Option<usize>
        ensures { SomeIff result (length (text self.now) ≤ room) (room - length (text self.now)) };

    // Writes it at the front of `out`, if it fits, and answers its length. If not, some of its parts may be written.
    fn put(&self, out: &mut [u8]) -> Option<usize>
        ensures len { SomeIff result (length (text self.now) ≤ length out.old) (length (text self.now)) }
        ensures after { length (text self.now) ≤ length out.old → out.new ≡ over (text self.now) out.old };
}

// Writes `x` at the front of `out`, if it fits, and answers its length.
pub(crate) fn print<T: Written>(x: &T, out: &mut [u8]) -> Result<usize, Refusal>
    ensures { Printed (T.text x.now) out.old out.new result }
{
    // no `and_then`: the check then does not know what is on the sheet
    x.room_after(out.len()).ok_or(Refusal::ShortSheet)?;
    x.put(out).ok_or(Refusal::ShortSheet)
}

impl Written for &[u8] {
    ghost text = { λ bytes. bytes.now };

    fn room_after(&self, room: usize) -> Option<usize> {
        room.checked_sub(self.len())
    }

    fn put(&self, out: &mut [u8]) -> Option<usize> {
        let (front, _) = out.split_at_mut_checked(self.len())?;
        front.copy_from_slice(self);
        Some(self.len())
    }
}

// One behind the other.
impl<A: Written, B: Written> Written for (A, B) {
    ghost text = { λ both. A.text both.0 ++ B.text both.1 };

    fn room_after(&self, room: usize) -> Option<usize> {
        self.1.room_after(self.0.room_after(room)?)
    }

    #[tactic(auto, using(crate::proofs::Pieces::both_put))]
    fn put(&self, out: &mut [u8]) -> Option<usize> {
        let at = self.0.put(out)?;
        Some(at + self.1.put(&mut out[at..])?)
    }
}

// One after another.
impl<T: Written, const N: usize> Written for [T; N] {
    ghost text = { λ xs. flat_map T.text xs };

    fn room_after(&self, room: usize) -> Option<usize> {
        // Tried as `try_fold`: the check did not get from its calls to the room that is left.
        let mut left = room;
        for x in self {
            left = x.room_after(left)?;
        }
        Some(left)
    }

    fn put(&self, out: &mut [u8]) -> Option<usize> {
        // Tried as `fold`, and as a slice that shrinks: the check lost what was written.
        let mut at = 0;
        for x in self {
            at += x.put(&mut out[at..])?;
        }
        Some(at)
    }
}
