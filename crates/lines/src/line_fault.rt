ghost use Rattle.std.specs.Prelude.{◌≡◌, ℕ, ◌+◌, ◌^◌, ◌<◌, length, nat_eq};
ghost use Rattle.std.specs.List.{common_prefix_len};
ghost use Rattle.records.specs.Format.{key_bytes};
ghost use Rattle.records.specs.Reading.{due, key_amiss, end_amiss, line_fault_at};

use crate::due::Due;
use spots::fault::LineFault;

impl Due {
    // Where the key due is not at the front of `s`, which starts where the line does.
    #[cold]
    pub(crate) fn key_fault(self, s: &[u8]) -> LineFault
        requires fits { 0 < length s.now → self.at + length s.now < 2 ^ 64 }
        ensures { result ≡ line_fault_at self.place.«record» self.place.start self.key self.at (key_amiss (key_bytes self.key) s.now) }
    {
        let n = in_common(self.key.bytes(), s);
        if n == s.len() {
            LineFault::Cut(self.spot(self.place.start))
        } else {
            LineFault::WrongKey(self.spot(self.at + n))
        }
    }

    // Where no line feed stands among the first bytes of `rest`, which follows the key.
    #[cold]
    pub(crate) fn end_fault(self, rest: &[u8]) -> LineFault
        requires { self.at + length (key_bytes self.key) < 2 ^ 64 }
        ensures { result ≡ line_fault_at self.place.«record» self.place.start self.key self.at (end_amiss (due self.key) rest.now) }
    {
        if rest.len() <= self.longest() {
            LineFault::Cut(self.spot(self.place.start))
        } else {
            LineFault::BadForm(self.spot(self.at + self.key.bytes().len()))
        }
    }
}

// How many bytes at the front two texts have in common.
fn in_common(a: &[u8], b: &[u8]) -> usize
    ensures { result ≡ common_prefix_len nat_eq a.now b.now }
{
    a.iter().zip(b).take_while(|(x, y)| x == y).count()
}
