ghost use Rattle.std.specs.Prelude.{◌≡◌, ℕ, true, OnOk, slice_index_or};
ghost use Rattle.std.specs.Result.{result_err};
ghost use Rattle.kinds.specs.Matroids.{may_hold};
ghost use Rattle.laminar.specs.Trees.{Accepted, first_bad_parent, laminar_fault};

use frames::frame::LANES;
use frames::refusal::Refusal;
use frames::setting::{SettingFault, check_count, check_numbers};
use matroids::matroid::HIGHEST_CAP;

// the first boxes are the lanes
pub(crate) const BOXES: usize = 96;

// Checks the settings of a tree of boxes: all lengths, then the caps, then the parents.
#[tactic(auto, unfolding(crate::specs::Trees::laminar_fault))]
pub(crate) fn check_tree(caps: &[u32], parents: &[u32]) -> Result<(), SettingFault>
    ensures fault { result_err result ≡ laminar_fault caps.now parents.now }
    ensures accepted { OnOk result (Accepted caps.now parents.now) }
{
    check_count(parents, BOXES)?;
    check_numbers(caps, BOXES, HIGHEST_CAP)?;
    check_parents(parents)
}

// Checks that each box may have its parent.
fn check_parents(parents: &[u32]) -> Result<(), SettingFault>
    ensures fault { result_err result ≡ first_bad_parent 0 parents.now }
    ensures accepted { OnOk result ((b : ℕ) → may_hold b (slice_index_or parents.now b 255) ≡ true) }
{
    for (b, p) in parents.iter().enumerate() {
        if !may_hold(b, *p) {
            return Err(SettingFault {
                refusal: Refusal::BadParent,
                index: b,
            });
        }
    }
    Ok(())
}

// Whether box b may have the parent p.
fn may_hold(b: usize, p: u32) -> bool
    ensures { result ≡ may_hold b p }
{
    let p = p as usize;
    p == 255 || (b < p && (LANES..BOXES).contains(&p))
}
