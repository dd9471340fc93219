ghost use Rattle.std.specs.Prelude.{◌≡◌, ◌≤◌};
ghost use Rattle.std.proofs.Common.{lit≤};
ghost use Rattle.kinds.specs.Objectives.{joint};
ghost use Rattle.kinds.proofs.Told.{joint_keeps};
ghost use Rattle.objectives.specs.Meanings.{Reset};

use frames::frame::Frame;
use objectives::objective::Objective;

const HIGHEST_VALUE: u32 = u32::MAX;

// The sum of two objectives: the value of a list of frames is what it is worth to both, and never above 4,294,967,295.
#[derive(Drop)]
pub struct Sum<V, W> {
    first: V,
    second: W,
    // what the frames added since the last reset have left of 4,294,967,295
    room: u32,
    ghost limit: { room ≤ 4294967295 },
}

impl<V: Objective, W: Objective> Sum<V, W> {
    // Both objectives with nothing added.
    pub fn new(mut first: V, mut second: W) -> Sum<V, W>
        ensures room { result.room ≡ 4294967295 }
        ensures first { Reset V.Objective.value V.Objective.residual first result.first }
        ensures second { Reset W.Objective.value W.Objective.residual second result.second }
    {
        first.reset();
        second.reset();
        Sum {
            first,
            second,
            room: HIGHEST_VALUE,
        }
    }
}

impl<V: Objective, W: Objective> Objective for Sum<V, W> {
    ghost value = { λ c. joint 4294967295 (V.Objective.value c.first) (W.Objective.value c.second) };

    ghost residual = { λ c. joint c.room (V.Objective.residual c.first) (W.Objective.residual c.second) };

    ghost laws = { λ c. record { whole = joint_keeps 4294967295 (lit≤ tt) (V.Objective.laws c.first).whole (W.Objective.laws c.second).whole; left = joint_keeps c.room c.limit (V.Objective.laws c.first).left (W.Objective.laws c.second).left } };

    fn gain(&self, x: &Frame) -> u32 {
        let gain = self.first.gain(x).saturating_add(self.second.gain(x));
        gain.min(self.room)
    }

    fn add(&mut self, x: &Frame) {
        self.room -= self.gain(x);
        self.first.add(x);
        self.second.add(x);
    }

    fn reset(&mut self) {
        self.first.reset();
        self.second.reset();
        self.room = HIGHEST_VALUE;
    }
}
