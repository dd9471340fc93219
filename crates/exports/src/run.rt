ghost use Rattle.std.specs.Prelude.{◌≡◌, ◌≢◌, ℕ, ◌%◌, Bool, List};
ghost use Rattle.std.specs.Result.{IfOk, result_err};
ghost use Rattle.frames.specs.declared.frame.Frame.{Frame as FrameOf};
ghost use Rattle.exports.specs.Opening.{Opens};
ghost use Rattle.exports.specs.Piles.{Exported};

use crate::fault::ArgumentFault;
use crate::number::run_number;
use crate::settings::Settings;
use matroids::matroid::Matroid;
use objectives::objective::Objective;
use serving::serve::serve;

// A whole run, if each argument is in order, as the number that is returned.
pub fn run<W: Objective + Drop, R: Matroid + Drop>(
    settings: Result<Settings<W, R>, ArgumentFault>,
    calls: &[u8],
    answers: &mut [u8],
) -> u64
    ensures exported { (n : ℕ) (f : List FrameOf → ℕ) (adm : List FrameOf → Bool) → IfOk settings (λ s. Opens W.Objective R.Matroid s n f adm) → Exported (result_err settings) f adm n calls.now answers.old result answers.new }
    ensures refused { result % 65536 ≢ 0 → answers.new ≡ answers.old }
{
    match settings {
        Ok(s) => run_number(serve(s.size, s.objective, s.matroid, calls, answers)),
        Err(fault) => fault.number(),
    }
}
