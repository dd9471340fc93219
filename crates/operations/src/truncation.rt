ghost use Rattle.std.specs.Prelude.{◌≡◌, ◌≤◌, [], ◌∷◌, IfOk, MatchResult};
ghost use Rattle.std.specs.Result.{result_err};
ghost use Rattle.kinds.specs.Matroids.{truncated};
ghost use Rattle.kinds.proofs.Boxes.{truncated_matroid};
ghost use Rattle.frames.specs.Settings.{numbers_fault};
ghost use Rattle.frames.proofs.Equality.{same-frames};

use frames::frame::Frame;
use frames::setting::{SettingFault, check_numbers};
use matroids::count::chosen_count;
use matroids::matroid::{HIGHEST_CAP, Matroid};

// Truncation of a matroid: independent below, and at most `limit` frames.
#[derive(Drop)]
pub struct Truncation<R> {
    limit: u32,
    below: R,
    ghost bound: { limit ≤ 48 },
}

impl<R> Truncation<R> {
    // At most k frames, k at most 48. The settings are a list of one number.
    pub fn new(k: u32, below: R) -> Result<Truncation<R>, SettingFault>
    where
        R: Drop,
        ensures fault { result_err result ≡ numbers_fault 1 48 (k ∷ []) }
        ensures accepted { IfOk result (λ t. (t.limit ≡ k) × (t.below ≡ below)) }
    {
        check_numbers(&[k], 1, HIGHEST_CAP)?;
        Ok(Truncation { limit: k, below })
    }

    // Another limit over the same matroid. A limit that is refused leaves the one that was there. In place, since what is
    // below stays.
    pub fn set(&mut self, k: u32) -> Result<(), SettingFault>
        ensures fault { result_err result ≡ numbers_fault 1 48 (k ∷ []) }
        ensures after { MatchResult result (λ _. (self.new.limit ≡ k) × (self.new.below ≡ self.old.below)) (λ _. self.new ≡ self.old) }
    {
        check_numbers(&[k], 1, HIGHEST_CAP)?;
        self.limit = k;
        Ok(())
    }
}

impl<R: Matroid> Matroid for Truncation<R> {
    ghost admits = { λ t. truncated (R.Matroid.admits t.below) t.limit };

    ghost laws = { λ t. truncated_matroid same-frames (R.Matroid.laws t.below) t.limit };

    fn independent(&self, frames: &[Frame], places: u64) -> bool {
        chosen_count(frames, places) <= self.limit && self.below.independent(frames, places)
    }
}
