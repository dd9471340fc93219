ghost use Rattle.std.specs.Prelude.{◌≡◌, List, [], None as NoneOf};
ghost use Rattle.kept.specs.Tables.{held};
ghost use Rattle.frames.specs.declared.frame.Frame.{Frame as FrameOf};
ghost use Rattle.picker.specs.Calls.{arrivals};
ghost use Rattle.picker.specs.Label.{Beside, Label};
ghost use Rattle.picker.specs.Met.{Met};
ghost use Rattle.runs.specs.Carried.{Carried};
ghost use Rattle.runs.specs.Runs.{called, history, run_on};

use crate::call::{Answer, Call};
use crate::ran::Ran;
use kept::size::Size;
use matroids::matroid::Matroid;
use objectives::objective::Objective;
use picker::picker::Picker;

// Carries out one call; a print-out goes to the front of the sheet.
pub fn carry_out<W: Objective, R: Matroid>(
    picker: &mut Picker<W, R>,
    call: &Call<'_>,
    sheet: &mut [u8],
) -> Answer
    ensures { Carried W.Objective R.Matroid (called call.now) picker.old sheet.old result picker.new sheet.new }
{
    match call {
        Call::Offer(x) => Answer::Offered(picker.offer(*x)),
        Call::Text(text) => Answer::Texted(picker.offer_text(text)),
        Call::Look(place) => Answer::Looked(picker.look(*place)),
        Call::Counts => Answer::Counted(picker.counts()),
        Call::Print => Answer::Printed(picker.print(sheet)),
        Call::Clear => {
            picker.clear();
            Answer::Cleared
        }
    }
}

// Opens a picker and carries out the calls in order, each carried out, stopped at a fault or declined.
// Size, objective and matroid stand apart: a struct of them would be taken apart at once.
pub fn run<W: Objective, R: Matroid>(
    size: Size,
    objective: W,
    matroid: R,
    calls: &[Call<'_>],
    sheet: &mut [u8],
) -> Ran<W, R>
    ensures size { result.picker.size.n ≡ size.n }
    ensures matroid { result.picker.matroid ≡ matroid }
    ensures value { (s : List FrameOf) → W.Objective.value result.picker.objective s ≡ W.Objective.value objective s }
    ensures met { Met W.Objective R.Matroid (history calls.now) result.picker }
    ensures label { Label (W.Objective.value objective) (R.Matroid.admits matroid) size.n (arrivals (history calls.now)) (held result.picker.table) result.picker.took }
    ensures bounds { Beside (W.Objective.value objective) (R.Matroid.admits matroid) size.n (arrivals (history calls.now)) (held result.picker.table) result.picker.took result.picker.gain result.picker.told }
    ensures left { (sheet.new, result.answer) ≡ run_on (W.Objective.value objective) (R.Matroid.admits matroid) size.n [] (history calls.now) sheet.old NoneOf }
{
    let mut picker = Picker::open(size, objective, matroid);
    let mut answer = None;
    for call in calls {
        answer = Some(carry_out(&mut picker, call, sheet));
    }
    Ran { picker, answer }
}
