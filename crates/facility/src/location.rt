ghost use Rattle.std.specs.Prelude.{◌≡◌, ℕ, ◌<◌, length, replicate, slice_index};
ghost use Rattle.kinds.specs.Objectives.{likeness, facility, facility_above};
ghost use Rattle.kinds.proofs.Located.{above_keeps};
ghost use Rattle.kinds.proofs.Objectives.{facility_keeps};

use frames::frame::Frame;
use objectives::objective::Objective;

const VIEWS: usize = 64;

// Facility location: the value of a list of frames is the sum, over the 64 views, of the greatest likeness that a frame
// of it has there. View v of look r stands at 64 · r + v in the caller's table, and a place past its end counts 0.
#[derive(Drop)]
pub struct FacilityLocation<'a> {
    table: &'a [u16],
    // for each view the greatest likeness of the frames added since the last reset
    best: [u16; 64],
    ghost count: { length best ≡ 64 },
}

impl<'a> FacilityLocation<'a> {
    // Over any table, with nothing added yet.
    pub fn new(table: &'a [u16]) -> FacilityLocation<'a>
        ensures table { result.table.now ≡ table.now }
        ensures best { result.best ≡ replicate 64 0 }
    {
        FacilityLocation {
            table,
            best: [0; 64],
        }
    }

    // Another table, as if newly made. It refuses nothing.
    pub fn set(&mut self, table: &'a [u16])
        ensures table { self.new.table.now ≡ table.now }
        ensures best { self.new.best ≡ replicate 64 0 }
    {
        *self = FacilityLocation::new(table);
    }
}

impl Objective for FacilityLocation<'_> {
    ghost value = { λ w. facility (λ x. x.look) w.table.now };

    ghost residual = { λ w. facility_above (λ x. x.look) w.table.now w.best };

    ghost laws = { λ w. record { whole = facility_keeps (λ x. x.look) w.table.now; left = above_keeps (λ x. x.look) w.table.now w.best } };

    fn gain(&self, x: &Frame) -> u32 {
        let mut gain = 0;
        for (likeness, best) in row_of(self.table, x.look).iter().zip(&self.best) {
            gain += likeness.saturating_sub(*best) as u32;
        }
        gain
    }

    fn add(&mut self, x: &Frame) {
        let row = row_of(self.table, x.look);
        for (v, best) in self.best.iter_mut().enumerate() {
            *best = (*best).max(row.get(v).copied().unwrap_or(0));
        }
    }

    fn reset(&mut self) {
        self.best = [0; 64];
    }
}

// The likenesses of a look, fewer than 64 where the table ends.
fn row_of(table: &[u16], look: u8) -> &[u16]
    ensures { (v : ℕ) → v < 64 → slice_index result.now v ≡ likeness table.now look v }
{
    let start = (VIEWS * look as usize).min(table.len());
    let end = (start + VIEWS).min(table.len());
    &table[start..end]
}
