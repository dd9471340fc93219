ghost use Rattle.std.specs.Prelude.{◌≡◌, ◌≤◌, min, [], length, None as NoneOf, sum_by};
ghost use Rattle.theory.specs.Digits.{binary_length};
ghost use Rattle.theory.specs.Replay.{replay};
ghost use Rattle.picker.specs.Calls.{arrivals};
ghost use Rattle.runs.specs.Runs.{history, run_on};
ghost use Rattle.outside_laws.specs.Counts.{count_up_to, uniform};

use crate::atmost::AtMost;
use crate::framecount::FrameCount;
use kept::size::Size;
use runs::call::Call;
use runs::run::run;

// How many frames a picker has accepted after the calls, where each frame is worth 1 up to `cap`, and at most `most` may
// stand together; the print-outs go to the sheet.
pub fn counted(size: Size, cap: u32, most: usize, calls: &[Call<'_>], sheet: &mut [u8]) -> u32
    ensures took { result ≡ length (replay (count_up_to cap) (uniform most) size.n (arrivals (history calls.now))).accepted }
    ensures least { result ≡ min (min cap most) (min size.n (length (arrivals (history calls.now)))) }
    ensures few { result ≤ sum_by (λ e. binary_length e.1) (replay (count_up_to cap) (uniform most) size.n (arrivals (history calls.now))).kept }
    ensures sheet { sheet.new ≡ (run_on (count_up_to cap) (uniform most) size.n [] (history calls.now) sheet.old NoneOf).0 }
{
    let ran = run(size, FrameCount::new(cap), AtMost::new(most), calls, sheet);
    ran.picker.counts().took
}
