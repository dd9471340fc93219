ghost use Rattle.picker.specs.Calls.{clearing};
ghost use Rattle.picker.specs.Met.{Carries};
ghost use Rattle.picker.specs.Offers.{Emptied};

use crate::picker::Picker;
use matroids::matroid::Matroid;
use objectives::objective::Objective;

impl<W: Objective, R: Matroid> Picker<W, R> {
    // Forgets the kept frames, zeroes the counts but the size, and resets the objective.
    pub fn clear(&mut self)
        ensures step { Emptied W.Objective self.old self.new }
        ensures carries { Carries W.Objective R.Matroid clearing self.old self.new }
    {
        self.objective.reset();
        self.table.clear();
        self.took = 0;
        self.seen = 0;
        self.gain = 0;
        self.told = 0;
    }
}
