ghost use Rattle.std.specs.Prelude.{◌≡◌, ℕ, ◌+◌, ◌*◌, ◌<◌, ◌≤◌, length, OnOk, slice_index};
ghost use Rattle.std.specs.Result.{result_err};
ghost use Rattle.concave.specs.Steps.{steps_fault};

use frames::frame::LANES;
use frames::refusal::Refusal;
use frames::setting::{SettingFault, check_count};

pub(crate) const STEPS_OF_LANE: usize = 8;

pub(crate) const STEPS: usize = STEPS_OF_LANE * LANES;

const HIGHEST_STEP: u32 = 8_388_607;

// Checks a table of steps: eight for each of 64 lanes, each at most 8,388,607 and at most the one before it in its lane.
#[tactic(auto, unfolding(crate::specs::Steps::steps_fault))]
pub(crate) fn check_steps(steps: &[u32]) -> Result<(), SettingFault>
    ensures fault { result_err result ≡ steps_fault 512 8388607 steps.now }
    ensures accepted { OnOk result ((length steps.now ≡ 512) × ((i : ℕ) → slice_index steps.now i ≤ 8388607) × ((l j : ℕ) → j < 7 → slice_index steps.now (8 * l + j + 1) ≤ slice_index steps.now (8 * l + j))) }
{
    check_count(steps, STEPS)?;
    let mut before = 0;
    for (i, step) in steps.iter().enumerate() {
        if *step > HIGHEST_STEP {
            return Err(SettingFault {
                refusal: Refusal::Over,
                index: i,
            });
        }
        if i % STEPS_OF_LANE != 0 && *step > before {
            return Err(SettingFault {
                refusal: Refusal::Rising,
                index: i,
            });
        }
        before = *step;
    }
    Ok(())
}
