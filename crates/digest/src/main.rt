#![tactic(auto)]

ghost use Rattle.std.specs.Prelude.{◌≡◌, ◌*◌, ◌≤◌, true, List, [], ◌∷◌, take, Some as SomeOf, MatchResult};
ghost use Rattle.std.specs.Result.{IfOk, result_err};
ghost use Rattle.theory.specs.Bag.{Choice};
ghost use Rattle.theory.specs.Replay.{frames};
ghost use Rattle.frames.specs.declared.frame.Frame.{Frame as FrameOf};
ghost use Rattle.kept.specs.Tables.{held};
ghost use Rattle.kinds.specs.Matroids.{partition};
ghost use Rattle.kinds.specs.Objectives.{coverage};
ghost use Rattle.picker.specs.Calls.{arrivals, reading};
ghost use Rattle.picker.specs.Label.{Label};
ghost use Rattle.runs.specs.Runs.{answer_after};
ghost use Rattle.cases.specs.Program.{places, weights, caps};

use frames::refusal::Refusal;
use kept::size::Size;
use matroids::partition::PartitionMatroid;
use objectives::coverage::Coverage;
use report::print::print_fault;
use runs::call::{Answer, Call};
use runs::ran::Ran;
use runs::run::run;
use std::io::{Read, Write};

// Class i has the weight i + 1. Written out: a loop that fills them takes an invariant and a lemma, so it is no plainer.
const WEIGHTS: [u32; 64] = [
    1, 2, 3, 4, 5, 6, 7, 8, 9, 10, 11, 12, 13, 14, 15, 16, 17, 18, 19, 20, 21, 22, 23, 24, 25, 26,
    27, 28, 29, 30, 31, 32, 33, 34, 35, 36, 37, 38, 39, 40, 41, 42, 43, 44, 45, 46, 47, 48, 49, 50,
    51, 52, 53, 54, 55, 56, 57, 58, 59, 60, 61, 62, 63, 64,
];

const CAPS: [u32; 64] = [1; 64];

// A picker of size 2 after the text was offered, and what the offer answered. The settings are never refused. Clause
// `quarter` is the promise's fourth sentence: four times the value of the kept frames is at least the value of every choice
// of different places of the arrivals, at most two, that may stand together.
fn shift(text: &[u8], sheet: &mut [u8]) -> Result<Ran<Coverage, PartitionMatroid>, Refusal>
    ensures ran { MatchResult result (λ ran. Label (coverage (λ x. x.marks) weights) (partition (λ x. x.lane) caps) places (arrivals (reading text.now ∷ [])) (held ran.picker.table) ran.picker.took × (ran.answer ≡ SomeOf (answer_after (coverage (λ x. x.marks) weights) (partition (λ x. x.lane) caps) places [] sheet.old (reading text.now)))) (λ _. ⊥) }
    ensures quarter { MatchResult result (λ ran. (c : List FrameOf) → Choice (arrivals (reading text.now ∷ [])) places c → partition (λ x. x.lane) caps c ≡ true → coverage (λ x. x.marks) weights c ≤ 4 * coverage (λ x. x.marks) weights (frames (held ran.picker.table))) (λ _. ⊥) }
    ensures sheet { sheet.new ≡ sheet.old }
{
    let size = Size::new(2)?;
    let objective = Coverage::new(&WEIGHTS)?;
    let matroid = PartitionMatroid::new(&CAPS)?;
    Ok(run(size, objective, matroid, &[Call::Text(text)], sheet))
}

// The lines that were printed at the front of the sheet, if they had room there.
fn printed(length: Result<usize, Refusal>, sheet: &[u8]) -> Result<&[u8], Refusal>
    ensures lines { IfOk result (λ lines. IfOk length (λ n. lines.now ≡ take n sheet.now)) }
    ensures fault { result_err result ≡ result_err length }
{
    let n = length?;
    Ok(&sheet[..n.min(sheet.len())])
}

fn main(rt: HostRuntime) -> anyhow::Result<()> {
    let mut text = Vec::new(rt.alloc());
    // one byte more than a text may have, so that a longer one is refused; a public constant for this one program would be
    // longer
    rt.stdin().take(65_537).read_to_end(&mut text)?;
    let mut sheet = [0; 512];
    let ran = shift(text.as_slice(), &mut sheet)?;
    if let Some(Answer::Texted(Err(fault))) = ran.answer {
        let lines = printed(print_fault(&fault, &mut sheet), &sheet)?;
        rt.stdout().write_all(lines)?;
    }
    let lines = printed(ran.picker.print(&mut sheet), &sheet)?;
    rt.stdout().write_all(lines)?;
    Ok(())
}
