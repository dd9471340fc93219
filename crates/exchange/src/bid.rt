ghost use Rattle.std.specs.Prelude.{◌≡◌, ◌<◌, ◌≤◌, ◌∷◌, length, Some as SomeOf};
ghost use Rattle.theory.specs.Lightest.{LightestIs};
ghost use Rattle.theory.specs.Replay.{frames, gains, may_take, has_room};
ghost use Rattle.exchange.specs.Outcomes.{displaced};
ghost use Rattle.exchange.specs.Search.{lighter_than};
ghost use Rattle.kept.specs.Tables.{held};

use crate::outcome::Outcome;
use crate::rows;
use frames::frame::Frame;
use kept::size::Size;
use kept::table::KeptTable;
use matroids::count::places_below;
use matroids::matroid::Matroid;

// A frame that bids for a place, with its gain, and what it bids against.
#[derive(Drop)]
pub(crate) struct Bid<'a, R> {
    pub(crate) matroid: &'a R,
    pub(crate) table: &'a KeptTable,
    // read by the clauses alone, which would else name the head of the row
    pub(crate) frame: Frame,
    pub(crate) gain: u32,
    // the frame, and the kept frames behind it
    pub(crate) row: &'a [Frame],
    ghost lined: { row.now ≡ frame ∷ frames (held table.now) },
    ghost fits: { length row.now ≤ 49 },
}

impl<R: Matroid> Bid<'_, R> {
    // Whether there is room for the frame beside the kept ones.
    pub(crate) fn has_room(&self, size: Size) -> bool
        ensures { result ≡ has_room (R.Matroid.admits self.now.matroid.now) size.n (held self.now.table.now) self.now.frame }
    {
        self.table.len() < size.get()
            && self
                .matroid
                .independent(self.row, places_below(self.row.len()))
    }

    // Whether the frame is independent with the kept ones but for the one at the place.
    fn may_take(&self, place: usize) -> bool
        requires { place < length self.now.table.now }
        ensures { result ≡ may_take (R.Matroid.admits self.now.matroid.now) (held self.now.table.now) self.now.frame place }
    {
        self.matroid
            .independent(self.row, rows::all_but(self.row.len(), place + 1))
    }

    // Whether the place is lighter than the best one so far.
    fn is_lighter(&self, place: usize, best: Option<usize>) -> bool
        ensures { result ≡ lighter_than (gains (held self.now.table.now)) place best }
    {
        best.is_none_or(|q| self.table.gain_at(place) < self.table.gain_at(q))
    }

    // The lightest of the places that the frame may take. A place that is not lighter than the best so far is not asked
    // about. Once none is left, the best so far is the lightest.
    pub(crate) fn lightest(&self) -> Option<usize>
        ensures { LightestIs (may_take (R.Matroid.admits self.now.matroid.now) (held self.now.table.now) self.now.frame) (gains (held self.now.table.now)) result }
    {
        let mut places = 0..self.table.len();
        let mut best = None;
        // a rule of the project: this search is a `loop` that yields its value by `break`
        loop {
            let Some(p) = places.next() else {
                break best;
            };
            if self.is_lighter(p, best) && self.may_take(p) {
                best = Some(p);
            }
        }
    }

    // What becomes of the frame, which may take the place, and no lighter one.
    pub(crate) fn contest(&self, place: usize) -> Outcome
        requires { place < length self.now.table.now }
        ensures { result ≡ displaced (held self.now.table.now) self.now.gain (SomeOf place) }
    {
        let gain = self.gain;
        let least = self.table.gain_at(place);
        if u64::from(gain) >= 2 * u64::from(least) {
            Outcome::Swapped {
                place,
                gain,
                left: self.table.entries()[place].frame,
            }
        } else {
            Outcome::Light {
                place,
                gain,
                lost_to: least,
            }
        }
    }
}
