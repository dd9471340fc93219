ghost use Rattle.std.specs.Prelude.{◌≡◌, ℕ, ◌+◌, ◌*◌, ◌<◌, ◌≤◌, length, replicate, IfOk, MatchResult, slice_index};
ghost use Rattle.std.specs.Result.{result_err};
ghost use Rattle.kinds.specs.Objectives.{concave, steps_of, steps_left};
ghost use Rattle.kinds.proofs.Stepped.{steps_keep, left_keeps};
ghost use Rattle.concave.specs.Steps.{steps_fault};

use crate::setting::{STEPS, STEPS_OF_LANE, check_steps};
use frames::frame::{Frame, LANES};
use frames::setting::SettingFault;
use objectives::objective::Objective;

// Concave functions of counts: the value of a list of frames is the sum, over the 64 lanes, of the lane's first c steps,
// where c is how many frames of the list are on that lane, 8 at most. A lane above 63 adds nothing.
#[derive(Drop)]
pub struct ConcaveCounts {
    // step n of lane l stands at 8 · l + n, as in the settings: rows of eight would be flattened again in each clause
    steps: [u32; STEPS],
    // how many frames of each lane were added since the last reset, 8 at most
    counts: [u8; LANES],
    ghost table: { length steps ≡ 512 },
    ghost lanes: { length counts ≡ 64 },
    ghost limit: { (i : ℕ) → slice_index steps i ≤ 8388607 },
    ghost falling: { (l j : ℕ) → j < 7 → slice_index steps (8 * l + j + 1) ≤ slice_index steps (8 * l + j) },
    ghost most: { (l : ℕ) → slice_index counts l ≤ 8 },
}

impl ConcaveCounts {
    // 512 steps, each at most 8,388,607, that never rise in a lane, with nothing added yet.
    pub fn new(steps: &[u32]) -> Result<ConcaveCounts, SettingFault>
        ensures fault { result_err result ≡ steps_fault 512 8388607 steps.now }
        ensures accepted { IfOk result (λ c. (c.steps ≡ steps.now) × (c.counts ≡ replicate 64 0)) }
    {
        check_steps(steps)?;
        Ok(ConcaveCounts {
            steps: steps.try_into().unwrap(),
            counts: [0; LANES],
        })
    }

    // Other steps, as if newly made. Steps that are refused leave all as it was. Each kind's own: see `Objective`.
    pub fn set(&mut self, steps: &[u32]) -> Result<(), SettingFault>
        ensures fault { result_err result ≡ steps_fault 512 8388607 steps.now }
        ensures after { MatchResult result (λ _. (self.new.steps ≡ steps.now) × (self.new.counts ≡ replicate 64 0)) (λ _. self.new ≡ self.old) }
    {
        *self = ConcaveCounts::new(steps)?;
        Ok(())
    }
}

impl Objective for ConcaveCounts {
    ghost value = { λ c. concave (λ x. x.lane) (steps_of c.steps) };

    ghost residual = { λ c. concave (λ x. x.lane) (steps_left c.counts c.steps) };

    ghost laws = { λ c. record { whole = steps_keep (λ x. x.lane) c.steps c.limit c.falling; left = left_keeps (λ x. x.lane) c.counts c.steps c.limit c.falling } };

    fn gain(&self, x: &Frame) -> u32 {
        let lane = x.lane as usize;
        match self.counts.get(lane) {
            Some(count) if (*count as usize) < STEPS_OF_LANE => {
                self.steps[STEPS_OF_LANE * lane + *count as usize]
            }
            _ => 0,
        }
    }

    fn add(&mut self, x: &Frame) {
        let lane = x.lane as usize;
        if lane < LANES {
            self.counts[lane] = (self.counts[lane] + 1).min(STEPS_OF_LANE as u8);
        }
    }

    fn reset(&mut self) {
        self.counts = [0; LANES];
    }
}
