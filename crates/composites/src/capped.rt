ghost use Rattle.std.specs.Prelude.{◌≡◌};
ghost use Rattle.kinds.specs.Objectives.{capped};
ghost use Rattle.kinds.proofs.Told.{capped_keeps};
ghost use Rattle.objectives.specs.Meanings.{Reset};

use frames::frame::Frame;
use objectives::objective::Objective;

// An objective under a cap: the value of a list of frames is the smaller of the cap and its value below.
#[derive(Drop)]
pub struct Capped<W> {
    below: W,
    cap: u32,
    // what the frames added since the last reset have left of the cap
    room: u32,
}

impl<W: Objective> Capped<W> {
    // The objective below with nothing added, under the cap.
    pub fn new(mut below: W, cap: u32) -> Capped<W>
        ensures cap { (result.cap ≡ cap) × (result.room ≡ cap) }
        ensures below { Reset W.Objective.value W.Objective.residual below result.below }
    {
        below.reset();
        Capped {
            below,
            cap,
            room: cap,
        }
    }

    // Another cap, as if newly made. In place, since what is below stays.
    pub fn set(&mut self, cap: u32)
        ensures cap { (self.new.cap ≡ cap) × (self.new.room ≡ cap) }
        ensures below { Reset W.Objective.value W.Objective.residual self.old.below self.new.below }
    {
        self.below.reset();
        self.cap = cap;
        self.room = cap;
    }
}

impl<W: Objective> Objective for Capped<W> {
    ghost value = { λ c. capped c.cap (W.Objective.value c.below) };

    ghost residual = { λ c. capped c.room (W.Objective.residual c.below) };

    ghost laws = { λ c. record { whole = capped_keeps c.cap (W.Objective.laws c.below).whole; left = capped_keeps c.room (W.Objective.laws c.below).left } };

    fn gain(&self, x: &Frame) -> u32 {
        self.below.gain(x).min(self.room)
    }

    fn add(&mut self, x: &Frame) {
        self.room -= self.gain(x);
        self.below.add(x);
    }

    fn reset(&mut self) {
        self.below.reset();
        self.room = self.cap;
    }
}
