ghost use Rattle.std.specs.Prelude.{◌≡◌, take, nat_eq};
ghost use Rattle.kinds.specs.Matroids.{direct_sum};
ghost use Rattle.kinds.proofs.Parts.{direct_sum_matroid};
ghost use Rattle.frames.proofs.Equality.{same-frames};
ghost use Rattle.operations.specs.Masks.{mask_of};

use frames::frame::Frame;
use matroids::matroid::Matroid;

// Direct sum of two matroids: the frames of side 0 are independent in the first, the others in the second.
#[derive(Drop)]
pub struct DirectSum<Q, R> {
    pub first: Q,
    pub second: R,
}

impl<Q: Matroid, R: Matroid> Matroid for DirectSum<Q, R> {
    ghost admits = { λ m. direct_sum (λ x. x.side) (Q.Matroid.admits m.first) (R.Matroid.admits m.second) };

    ghost laws = { λ m. direct_sum_matroid same-frames (Q.Matroid.laws m.first) (R.Matroid.laws m.second) (λ x. x.side) };

    fn independent(&self, frames: &[Frame], places: u64) -> bool {
        let side = first_side(frames);
        self.first.independent(frames, places & side)
            && self.second.independent(frames, places & !side)
    }
}

// The places, of the first 64, of the frames of side 0.
fn first_side(frames: &[Frame]) -> u64
    ensures { result ≡ mask_of (λ x. nat_eq x.side 0) (take 64 frames.now) }
{
    let first = &frames[..frames.len().min(64)];
    let mut mask = 0;
    for (i, x) in first.iter().enumerate() {
        mask |= u64::from(x.side == 0) << i;
    }
    mask
}
