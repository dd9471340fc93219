ghost use Rattle.std.specs.Prelude.{◌≡◌};
ghost use Rattle.records.specs.Sheets.{Printed};
ghost use Rattle.report.specs.Digest.{digest};
ghost use Rattle.picker.specs.Calls.{looking, counting, printing};
ghost use Rattle.picker.specs.Counted.{counts_of, look_of, PlacesBack};
ghost use Rattle.picker.specs.Met.{Carries, Promises};

use crate::picker::Picker;
use frames::entry::Entry;
use frames::refusal::Refusal;
use matroids::matroid::Matroid;
use objectives::objective::Objective;
use report::counts::Counts;
use report::print::print_digest;

// A rule of the project: the promise is a clause of each call that shows something of the picker.
impl<W: Objective, R: Matroid> Picker<W, R> {
    // The kept frame at a place, with its gain.
    pub fn look(&self, place: usize) -> Result<Entry, Refusal>
        ensures value { result ≡ look_of self.now place }
        ensures carries { Carries W.Objective R.Matroid (looking place) self.now self.now }
        ensures promise { Promises W.Objective R.Matroid self.now }
    {
        self.table.get(place).ok_or(Refusal::NoPlace)
    }

    pub fn counts(&self) -> Counts
        ensures value { result ≡ counts_of self.now }
        ensures carries { Carries W.Objective R.Matroid counting self.now self.now }
        ensures promise { Promises W.Objective R.Matroid self.now }
    {
        Counts {
            size: self.size.get() as u32,
            kept: self.table.len() as u32,
            took: self.took,
            seen: self.seen,
            gain: self.gain,
            told: self.told,
        }
    }

    // Prints the digest at the front of `out`. What it prints for each place reads back as the place, the gain and the
    // frame that are kept there.
    pub fn print(&self, out: &mut [u8]) -> Result<usize, Refusal>
        ensures printed { Printed (digest (counts_of self.now) self.now.table) out.old out.new result }
        ensures reads_back { PlacesBack self.now }
        ensures carries { Carries W.Objective R.Matroid printing self.now self.now }
        ensures promise { Promises W.Objective R.Matroid self.now }
    {
        print_digest(&self.counts(), self.table.entries(), out)
    }
}
