ghost use Rattle.std.specs.Prelude.{◌≡◌, ℕ, ◌-◌, ◌<◌, ◌≤◌, length, take, drop, IfOk, if◌then◌else◌, MatchResult, slice_index};
ghost use Rattle.std.specs.Result.{result_err};
ghost use Rattle.kinds.specs.Objectives.{coverage, uncovered, shows};
ghost use Rattle.frames.specs.Settings.{numbers_fault};
ghost use Rattle.kinds.proofs.Covered.{coverage_keeps, uncovered_keeps};

use crate::objective::Objective;
use frames::frame::Frame;
use frames::setting::{SettingFault, check_numbers};

const CLASSES: usize = 64;

const HIGHEST_WEIGHT: u32 = 67_108_863;

// Weighted coverage: the value of a list of frames is the sum of the weights of the classes that any of them shows.
#[derive(Drop)]
pub struct Coverage {
    weights: [u32; CLASSES],
    // the classes that the frames added since the last reset show
    covered: u64,
    ghost count: { length weights ≡ 64 },
    ghost limit: { (i : ℕ) → slice_index weights i ≤ 67108863 },
}

impl Coverage {
    // 64 weights, each at most 67,108,863, with nothing added yet.
    pub fn new(weights: &[u32]) -> Result<Coverage, SettingFault>
        ensures fault { result_err result ≡ numbers_fault 64 67108863 weights.now }
        ensures accepted { IfOk result (λ c. (c.weights ≡ weights.now) × (c.covered ≡ 0)) }
    {
        check_numbers(weights, CLASSES, HIGHEST_WEIGHT)?;
        Ok(Coverage {
            weights: weights.try_into().unwrap(),
            covered: 0,
        })
    }

    // Other weights, as if newly made. Weights that are refused leave all as it was. Each kind's own: see `Objective`.
    pub fn set(&mut self, weights: &[u32]) -> Result<(), SettingFault>
        ensures fault { result_err result ≡ numbers_fault 64 67108863 weights.now }
        ensures after { MatchResult result (λ _. (self.new.weights ≡ weights.now) × (self.new.covered ≡ 0)) (λ _. self.new ≡ self.old) }
    {
        *self = Coverage::new(weights)?;
        Ok(())
    }
}

impl Objective for Coverage {
    ghost value = { λ c. coverage (λ x. x.marks) c.weights };

    ghost residual = { λ c. coverage (λ x. x.marks) (uncovered c.covered c.weights) };

    ghost laws = { λ c. record { whole = coverage_keeps (λ x. x.marks) c.weights c.limit; left = uncovered_keeps (λ x. x.marks) c.covered c.weights c.limit } };

    fn gain(&self, x: &Frame) -> u32 {
        let shown = x.marks & !self.covered;
        if shown == 0 {
            return 0;
        }
        // from the first new class to the last
        let first = shown.trailing_zeros() as usize;
        let end = CLASSES - shown.leading_zeros() as usize;
        let weights = between(&self.weights, first, end);
        // shifted once, and not in each turn
        let new = shown >> first;
        let mut gain = 0;
        // a rule of the project: a loop over the weights with their index, not a chain
        for (i, weight) in weights.iter().enumerate() {
            gain += weight_if_shown(new, i, *weight);
        }
        gain
    }

    fn add(&mut self, x: &Frame) {
        self.covered |= x.marks;
    }

    fn reset(&mut self) {
        self.covered = 0;
    }
}

// The weights from one class up to another.
fn between(weights: &[u32], first: usize, end: usize) -> &[u32]
    requires { (first ≤ end) × (end ≤ length weights.now) }
    ensures { result.now ≡ take (end - first) (drop first weights.now) }
{
    &weights[first..end]
}

// The weight of class i if it is among those shown, or 0: a selection, as jumps on random marks are mispredicted.
fn weight_if_shown(shown: u64, i: usize, weight: u32) -> u32
    requires { i < 64 }
    ensures { result ≡ (if shows shown i then weight else 0) }
{
    if (shown >> i) % 2 == 1 { weight } else { 0 }
}
