ghost use Rattle.std.specs.Prelude.{◌≡◌, ◌<◌, List, [], ◌∷◌, ◌++◌, length, slice_set};
ghost use Rattle.kept.specs.Tables.{held};
ghost use Rattle.picker.specs.Calls.{offering};
ghost use Rattle.picker.specs.Met.{Carries};
ghost use Rattle.picker.specs.Offers.{Offered, Advanced, verdict};
ghost use Rattle.picker.specs.Settling.{Accepting};

use crate::arrival::Arrival;
use crate::picker::Picker;
use exchange::judge::judge;
use exchange::outcome::Outcome;
use frames::entry::Entry;
use frames::frame::Frame;
use frames::refusal::Refusal;
use matroids::matroid::Matroid;
use objectives::objective::Objective;

impl<W: Objective, R: Matroid> Picker<W, R> {
    // What `keep` and `swap` share is not drawn out: the picker between would need a promise of its own, longer than these.
    // The gain stands beside the arrival, which tells that its frame is in range, as an entry would not.
    fn keep(&mut self, arrival: Arrival, gain: u32)
        requires seen { self.old.took < self.old.seen }
        requires room { length (held self.old.table) < self.old.size.n }
        ensures { Accepting W.Objective arrival.frame gain (held self.old.table ++ ((arrival.frame, gain) ∷ [])) self.old self.new }
    {
        self.objective.add(&arrival.frame);
        self.table
            .push(Entry {
                frame: arrival.frame,
                gain,
            })
            .unwrap();
        self.took += 1;
        self.gain += u64::from(gain);
        self.told += u64::from(gain);
    }

    // The frame that leaves is not taken back from the objective.
    fn swap(&mut self, newcomer: Arrival, gain: u32, place: usize)
        requires seen { self.old.took < self.old.seen }
        requires place { place < length (held self.old.table) }
        ensures { Accepting W.Objective newcomer.frame gain (slice_set (held self.old.table) place (newcomer.frame, gain)) self.old self.new }
    {
        let was = self.table.gain_at(place);
        self.objective.add(&newcomer.frame);
        self.table.replace(
            place,
            Entry {
                frame: newcomer.frame,
                gain,
            },
        );
        self.took += 1;
        self.told += u64::from(gain);
        self.gain = self.gain - u64::from(was) + u64::from(gain);
    }

    // What becomes of `x`, by its gain over all frames that were accepted. Inlined, as `take_in` and `judge`: an outcome would
    // be written to memory at each call that answers it, and read back.
    #[inline(always)]
    fn weigh(&self, x: Frame) -> Outcome
        ensures { result ≡ verdict W.Objective R.Matroid self.now x }
    {
        let gain = self.objective.gain(&x);
        judge(&self.matroid, self.size, &self.table, x, gain)
    }

    #[inline(always)]
    pub(crate) fn take_in(&mut self, arrival: Arrival) -> Outcome
        requires { self.old.seen < 1000000 }
        ensures outcome { result ≡ verdict W.Objective R.Matroid self.old arrival.frame }
        ensures after { Advanced W.Objective R.Matroid self.old (arrival.frame ∷ []) self.new }
    {
        let outcome = self.weigh(arrival.frame);
        self.seen += 1;
        match outcome {
            Outcome::Kept { gain, .. } => self.keep(arrival, gain),
            Outcome::Swapped { place, gain, .. } => self.swap(arrival, gain, place),
            Outcome::Empty | Outcome::Light { .. } | Outcome::Barred { .. } => {}
        }
        outcome
    }

    // Takes in a frame, unless its lane or side is too high or the shift is full; then nothing changes.
    pub fn offer(&mut self, x: Frame) -> Result<Outcome, Refusal>
        ensures step { Offered W.Objective R.Matroid self.old x result self.new }
        ensures carries { Carries W.Objective R.Matroid (offering x) self.old self.new }
    {
        let arrival = Arrival::try_from(x)?;
        if self.is_full() {
            return Err(Refusal::ShiftFull);
        }
        Ok(self.take_in(arrival))
    }
}
