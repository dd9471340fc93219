ghost use Rattle.std.specs.Prelude.{◌≡◌, length, nat_le};
ghost use Rattle.std.specs.List.{flat_map};
ghost use Rattle.encoding.specs.Answers.{placed};

// Whether so many bytes have room for the parts.
#[inline(always)]
fn fit(parts: &[&[u8]], room: usize) -> bool
    ensures { result ≡ nat_le (length (flat_map (λ p. p.now) parts.now)) room }
{
    let mut left = room;
    for part in parts {
        if part.len() > left {
            return false;
        }
        left -= part.len();
    }
    true
}

// Writes the parts, one behind the other, at the front of `out`, if it has room for all of them; else `out` keeps every byte.
// Not as report's `Written`: a slice of parts is shorter than nested pairs, and no room is no fault here.
// Inlined, since a caller knows how long each part is: no loop is left.
#[inline(always)]
#[tactic(auto, using(crate::proofs::Placing::part_long))]
pub(crate) fn put(parts: &[&[u8]], out: &mut [u8])
    ensures { out.new ≡ placed (flat_map (λ p. p.now) parts.now) out.old }
{
    if !fit(parts, out.len()) {
        return;
    }
    let mut at = 0;
    for part in parts {
        out[at..at + part.len()].copy_from_slice(part);
        at += part.len();
    }
}
