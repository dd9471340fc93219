ghost use Rattle.std.specs.Prelude.{[]};
ghost use Rattle.picker.specs.Met.{Met};
ghost use Rattle.picker.specs.Offers.{Opened};

use crate::picker::Picker;
use kept::size::Size;
use kept::table::KeptTable;
use matroids::matroid::Matroid;
use objectives::objective::Objective;

impl<W: Objective, R: Matroid> Picker<W, R> {
    // A picker that keeps nothing, over a reset objective. The three stand apart: a struct of them would be taken apart at
    // once.
    pub fn open(size: Size, mut objective: W, matroid: R) -> Picker<W, R>
        ensures opened { Opened W.Objective size.n objective matroid result }
        ensures met { Met W.Objective R.Matroid [] result }
    {
        objective.reset();
        Picker {
            objective,
            matroid,
            table: KeptTable::new(),
            size,
            took: 0,
            seen: 0,
            gain: 0,
            told: 0,
        }
    }
}
