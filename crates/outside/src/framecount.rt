ghost use Rattle.std.specs.Prelude.{◌≡◌, ◌≤◌};
ghost use Rattle.outside_laws.specs.Counts.{count_up_to};
ghost use Rattle.outside_laws.proofs.Counts.{count_lawful};

use frames::frame::Frame;
use objectives::objective::Objective;

// Each frame is worth 1, up to a cap.
#[derive(Drop)]
pub struct FrameCount {
    cap: u32,
    // how many further frames since the last reset would add something
    left: u32,
    ghost high: { cap ≤ 4294967295 },
    ghost rest: { left ≤ 4294967295 },
}

impl FrameCount {
    // With nothing added yet.
    pub fn new(cap: u32) -> FrameCount
        ensures cap { result.cap ≡ cap }
        ensures left { result.left ≡ cap }
    {
        FrameCount { cap, left: cap }
    }
}

impl Objective for FrameCount {
    ghost value = { λ w. count_up_to w.cap };

    ghost residual = { λ w. count_up_to w.left };

    ghost laws = { λ w. record { whole = count_lawful w.cap w.high; left = count_lawful w.left w.rest } };

    fn gain(&self, x: &Frame) -> u32 {
        self.left.min(1)
    }

    fn add(&mut self, x: &Frame) {
        self.left = self.left.saturating_sub(1);
    }

    fn reset(&mut self) {
        self.left = self.cap;
    }
}
