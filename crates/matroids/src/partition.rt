ghost use Rattle.std.specs.Prelude.{◌≡◌, ℕ, ◌≤◌, length, List, IfOk, MatchResult, slice_index};
ghost use Rattle.std.specs.Result.{result_err};
ghost use Rattle.kinds.specs.Matroids.{partition};
ghost use Rattle.kinds.proofs.Lanes.{partition_matroid};
ghost use Rattle.frames.specs.Settings.{numbers_fault};
ghost use Rattle.frames.proofs.Equality.{same-frames};

use crate::matroid::{HIGHEST_CAP, Matroid};
use crate::room::{Room, takes_chosen};
use frames::frame::{Frame, LANES};
use frames::setting::{SettingFault, check_numbers, low_bytes};
use std::marker::Model;

// Partition matroid: no lane has more frames than its cap, and a lane above 63 has none.
#[derive(Drop)]
pub struct PartitionMatroid {
    caps: [u8; LANES],
}

impl Model for PartitionMatroid {
    ghost Value = { List ℕ };

    ghost view = { λ m. m.caps };

    ghost invariant = { λ m. (length m.caps ≡ 64) × ((i : ℕ) → slice_index m.caps i ≤ 48) };
}

impl PartitionMatroid {
    // 64 caps, each at most 48.
    pub fn new(caps: &[u32]) -> Result<PartitionMatroid, SettingFault>
        ensures fault { result_err result ≡ numbers_fault 64 48 caps.now }
        ensures accepted { IfOk result (λ m. m ≡ caps.now) }
        ensures fits { IfOk result (λ m. (length m ≡ 64) × ((i : ℕ) → slice_index m i ≤ 48)) }
    {
        check_numbers(caps, LANES, HIGHEST_CAP)?;
        Ok(PartitionMatroid {
            caps: low_bytes(caps),
        })
    }

    // The caps, by lane. Of any partition matroid it tells that these are in order, which a contract sees of no model.
    pub fn caps(&self) -> &[u8]
        ensures value { result.now ≡ self.now }
        ensures fits { (length self.now ≡ 64) × ((i : ℕ) → slice_index self.now i ≤ 48) }
    {
        &self.caps
    }

    // Other caps. Caps that are refused leave those that were there. Each kind's own: see `Matroid`.
    pub fn set(&mut self, caps: &[u32]) -> Result<(), SettingFault>
        ensures fault { result_err result ≡ numbers_fault 64 48 caps.now }
        ensures after { MatchResult result (λ _. self.new ≡ caps.now) (λ _. self.new ≡ self.old) }
        ensures fits { (length self.new ≡ 64) × ((i : ℕ) → slice_index self.new i ≤ 48) }
    {
        // looks into the caps that may stay, so that it is known of them too that they are in order
        prove!(self.caps[0] <= 48);
        *self = PartitionMatroid::new(caps)?;
        Ok(())
    }
}

impl Matroid for PartitionMatroid {
    ghost admits = { λ m. partition (λ x. x.lane) m };

    ghost laws = { λ m. partition_matroid same-frames (λ x. x.lane) m };

    fn independent(&self, frames: &[Frame], places: u64) -> bool {
        takes_chosen(LanesLeft { left: self.caps }, frames, places)
    }
}

// How many more frames each lane may have. A frame takes one from its lane.
#[derive(Drop)]
struct LanesLeft {
    left: [u8; LANES],
    ghost count: { length left ≡ 64 },
}

impl Room for LanesLeft {
    ghost admits = { λ room. partition (λ x. x.lane) room.left };

    fn takes(&mut self, x: &Frame) -> bool {
        let lane = x.lane as usize;
        if lane >= LANES || self.left[lane] == 0 {
            return false;
        }
        self.left[lane] -= 1;
        true
    }

    ghost nothing = { λ room. (partition_matroid same-frames (λ x. x.lane) room.left).nothing };
}
