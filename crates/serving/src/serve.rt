ghost use Rattle.std.specs.Prelude.{◌≡◌, ◌≤◌, List, [], length};
ghost use Rattle.picker.specs.Met.{Met};
ghost use Rattle.runs.specs.Runs.{called};
ghost use Rattle.encoding.specs.Answers.{fixed_of};
ghost use Rattle.encoding.specs.Requests.{Requested, Encodes};
ghost use Rattle.serving.specs.Answering.{Answered};
ghost use Rattle.serving.specs.Promise.{Promises};
ghost use Rattle.serving.specs.Serving.{Due, Served, answered_all, due_all};

use crate::refusal::RunRefusal;
use crate::requests::Requests;
use encoding::answer::put_answer;
use encoding::request::Request;
use kept::size::Size;
use matroids::matroid::Matroid;
use objectives::objective::Objective;
use picker::picker::Picker;
use runs::run::carry_out;

// The most bytes of answers: users are told how many they are by a number of 48 bits.
const LONGEST: usize = 281_474_976_710_655;

// How many bytes the answers take, if the bytes are calls.
fn answers_due(calls: &[u8]) -> Option<u128>
    ensures { Due calls.now result }
{
    let mut requests = Requests { rest: calls };
    // in 128 bits: many calls may each ask for a print-out of 2^32 bytes, which are more than 64 bits count
    let mut due: u128 = 0;
    // Tried as a `for` over `by_ref()`: the proof lost what is left of the bytes.
    while let Some(request) = requests.next() {
        due += request.due();
    }
    requests.rest.is_empty().then_some(due)
}

// Carries out a call, and writes its answer into the window.
fn answer<W: Objective, R: Matroid>(
    picker: &mut Picker<W, R>,
    request: &Request<'_>,
    window: &mut [u8],
)
    requires { fixed_of (called request.now.call) ≤ length window.old }
    ensures { Answered W.Objective R.Matroid (called request.now.call) picker.old window.old picker.new window.new }
{
    let fixed = request.fixed();
    let said = carry_out(picker, &request.call, &mut window[fixed..]);
    put_answer(&said, window);
}

// Carries out the calls in order, and writes each answer behind the one before it.
fn answer_all<W: Objective + Drop, R: Matroid + Drop>(
    mut picker: Picker<W, R>,
    calls: &[u8],
    answers: &mut [u8],
)
    requires { Met W.Objective R.Matroid [] picker }
    ensures { (cs : List Requested) → Encodes cs calls.now → due_all cs ≤ length answers.old → answers.new ≡ answered_all (W.Objective.value picker.objective) (R.Matroid.admits picker.matroid) picker.size.n [] cs answers.old }
{
    let requests = Requests { rest: calls };
    // Tried as a slice that shrinks: the proof lost what was written.
    let mut to = 0;
    for request in requests {
        let due = request.due();
        if due > (answers.len() - to) as u128 {
            // never met: the answers due were found to fit
            return;
        }
        let due = due as usize;
        answer(&mut picker, &request, &mut answers[to..to + due]);
        to += due;
    }
}

// A whole run: the calls and the answers as bytes. It tells how many bytes the answers take.
// Size, objective and matroid stand apart: a struct of them would be taken apart at once.
pub fn serve<W: Objective + Drop, R: Matroid + Drop>(
    size: Size,
    objective: W,
    matroid: R,
    calls: &[u8],
    answers: &mut [u8],
) -> Result<u64, RunRefusal>
    ensures served { Served (W.Objective.value objective) (R.Matroid.admits matroid) size.n calls.now answers.old result answers.new }
    ensures promise { Promises (W.Objective.value objective) (R.Matroid.admits matroid) size.n }
{
    let Some(due) = answers_due(calls) else {
        return Err(RunRefusal::BadCalls);
    };
    let room = answers.len().min(LONGEST);
    if due > room as u128 {
        return Err(RunRefusal::ShortAnswers);
    }
    answer_all(Picker::open(size, objective, matroid), calls, answers);
    Ok(due as u64)
}
