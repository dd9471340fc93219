ghost use Rattle.std.specs.Prelude.{◌≡◌, ℕ, List, [], ◌∷◌};
ghost use Rattle.frames.specs.declared.frame.Frame.{Frame as FrameOf};
ghost use Rattle.objectives.specs.Meanings.{ObjectiveLaws, Added, Reset};

use frames::frame::Frame;

// What a set of frames is worth: a monotone submodular function of it, never above 4,294,967,295. `new` and `set` are each
// kind's own, since the settings differ from kind to kind in number and type. The clauses of a kind read its fields: the
// value of a model would be the same fields, without the ghost fields that `laws` needs of some.
pub trait Objective {
    // what a list of frames is worth; the settings alone decide it
    ghost value: { Self → List FrameOf → ℕ };

    // what a list of frames would add to the frames added since the last reset
    ghost residual: { Self → List FrameOf → ℕ };

    ghost laws: { (w : Self) → ObjectiveLaws (value w) (residual w) };

    // What `x` would add.
    fn gain(&self, x: &Frame) -> u32
        ensures { result ≡ residual self.now (x.now ∷ []) };

    fn add(&mut self, x: &Frame)
        ensures { Added value residual self.old x.now self.new };

    fn reset(&mut self)
        ensures { Reset value residual self.old self.new };
}
