ghost use Rattle.std.specs.Prelude.{◌≡◌, Bool, List};
ghost use Rattle.theory.specs.Laws.{MatroidLaws};
ghost use Rattle.frames.specs.declared.frame.Frame.{Frame as FrameOf};
ghost use Rattle.frames.specs.Frames.{same};
ghost use Rattle.matroids.specs.Chosen.{chosen};

use frames::entry::MOST_KEPT;
use frames::frame::Frame;

// The highest cap that a setting may give.
pub const HIGHEST_CAP: u32 = MOST_KEPT as u32;

// Which frames may stand together: the independent lists of a matroid. `new` and `set` are each kind's own, since the
// settings differ from kind to kind in number and type. A kind with one setting has a model, and is that setting in each
// clause; the others have none, as it would be the fields again, without the ghost fields that a law may need.
pub trait Matroid {
    ghost admits: { Self → List FrameOf → Bool };

    ghost laws: { (m : Self) → MatroidLaws same (admits m) };

    // Whether the frames at the places of the set are independent; bit i of the set is place i.
    fn independent(&self, frames: &[Frame], places: u64) -> bool
        ensures { result ≡ admits self.now (chosen frames.now places) };
}
