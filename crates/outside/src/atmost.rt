ghost use Rattle.std.specs.Prelude.{◌≡◌, ℕ};
ghost use Rattle.frames.proofs.Equality.{same-frames};
ghost use Rattle.outside_laws.specs.Counts.{uniform};
ghost use Rattle.outside_laws.proofs.Counts.{uniform_matroid};

use frames::frame::Frame;
use matroids::count::chosen_count;
use matroids::matroid::Matroid;
use std::marker::Model;

// At most so many frames, whichever they are.
#[derive(Drop)]
pub struct AtMost {
    most: usize,
}

impl Model for AtMost {
    ghost Value = { ℕ };

    ghost view = { λ m. m.most };
}

impl AtMost {
    pub fn new(most: usize) -> AtMost
        ensures { result ≡ most }
    {
        AtMost { most }
    }
}

impl Matroid for AtMost {
    ghost admits = { λ m. uniform m };

    ghost laws = { λ m. uniform_matroid same-frames m };

    fn independent(&self, frames: &[Frame], places: u64) -> bool {
        chosen_count(frames, places) as usize <= self.most
    }
}
