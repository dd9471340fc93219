ghost use Rattle.std.specs.Prelude.{◌≡◌, ℕ, ◌≤◌, true, length, IfOk, MatchResult, slice_index, slice_index_or};
ghost use Rattle.std.specs.Result.{result_err};
ghost use Rattle.kinds.specs.Matroids.{laminar, may_hold};
ghost use Rattle.kinds.proofs.Lanes.{laminar_matroid, parents_from};
ghost use Rattle.frames.proofs.Equality.{same-frames};
ghost use Rattle.laminar.specs.Trees.{laminar_fault};

use crate::tree::{BOXES, check_tree};
use frames::frame::{Frame, LANES};
use frames::setting::{SettingFault, low_bytes};
use matroids::matroid::Matroid;
use matroids::room::{Room, takes_chosen};

// Laminar matroid over a tree of 96 boxes, the first 64 of them the lanes: no box has more frames than its cap. A frame
// lies in its lane, in that box's parent, and so on up. A lane above 63 has no frames.
#[derive(Drop)]
pub struct LaminarMatroid {
    // apart from the parents, as each question begins with a copy of the caps alone
    caps: [u8; BOXES],
    // numbers, as there is no heap for a Box; 255 for none: the definitions and each clause speak of the settings' numbers,
    // and an Option would be turned back into 255 in each of them
    parents: [u8; BOXES],
    ghost count: { length caps ≡ 96 },
    ghost paired: { length parents ≡ 96 },
    ghost limit: { (i : ℕ) → slice_index caps i ≤ 48 },
    ghost tree: { (b : ℕ) → may_hold b (slice_index_or parents b 255) ≡ true },
}

impl LaminarMatroid {
    // 96 caps, each at most 48, and 96 parents, each 255 or a number from 64 to 95 above its box's own. The two lists
    // stand apart, as C passes them.
    pub fn new(caps: &[u32], parents: &[u32]) -> Result<LaminarMatroid, SettingFault>
        ensures fault { result_err result ≡ laminar_fault caps.now parents.now }
        ensures accepted { IfOk result (λ m. (m.caps ≡ caps.now) × (m.parents ≡ parents.now)) }
    {
        check_tree(caps, parents)?;
        Ok(LaminarMatroid {
            caps: low_bytes(caps),
            parents: low_bytes(parents),
        })
    }

    // Another tree. Settings that are refused leave the tree that was there. Each kind's own: see `Matroid`.
    pub fn set(&mut self, caps: &[u32], parents: &[u32]) -> Result<(), SettingFault>
        ensures fault { result_err result ≡ laminar_fault caps.now parents.now }
        ensures after { MatchResult result (λ _. (self.new.caps ≡ caps.now) × (self.new.parents ≡ parents.now)) (λ _. self.new ≡ self.old) }
    {
        *self = LaminarMatroid::new(caps, parents)?;
        Ok(())
    }
}

impl Matroid for LaminarMatroid {
    ghost admits = { λ m. laminar (λ x. x.lane) m.parents m.caps };

    ghost laws = { λ m. laminar_matroid same-frames (λ x. x.lane) m.parents m.caps (parents_from m.parents m.paired m.tree) };

    fn independent(&self, frames: &[Frame], places: u64) -> bool {
        let room = BoxesLeft {
            tree: self,
            left: self.caps,
        };
        takes_chosen(room, frames, places)
    }
}

// How many more frames each box may have. A frame takes one from each box on its way up.
#[derive(Drop)]
struct BoxesLeft<'a> {
    tree: &'a LaminarMatroid,
    left: [u8; BOXES],
    ghost count: { length left ≡ 96 },
}

impl Room for BoxesLeft<'_> {
    ghost admits = { λ room. laminar (λ x. x.lane) room.tree.now.parents room.left };

    fn takes(&mut self, x: &Frame) -> bool {
        let mut b = x.lane as usize;
        if b >= LANES {
            return false;
        }
        while b < BOXES {
            if self.left[b] == 0 {
                return false;
            }
            self.left[b] -= 1;
            b = self.tree.parents[b] as usize;
        }
        true
    }

    ghost nothing = { λ room. (laminar_matroid same-frames (λ x. x.lane) room.tree.now.parents room.left (parents_from room.tree.now.parents room.tree.now.paired room.tree.now.tree)).nothing };
}
