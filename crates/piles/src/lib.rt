#![tactic(auto)]

ghost use Rattle.std.specs.Prelude.{◌≡◌, List};
ghost use Rattle.frames.specs.declared.frame.Frame.{Frame as FrameOf};
ghost use Rattle.piles.specs.Pile.{pile_value};

use composites::capped::Capped;
use composites::sum::Sum;
use concave::counts::ConcaveCounts;
use facility::location::FacilityLocation;
use objectives::coverage::Coverage;
use objectives::objective::Objective;

#[cfg(test)]
mod matroid_tests;
#[cfg(test)]
mod picked;
#[cfg(test)]
mod tests;

pub type Pile<'a> = Sum<Capped<FacilityLocation<'a>>, Sum<Coverage, ConcaveCounts>>;

// Objectives three deep: facility location over a caller's table, under a cap, and coverage with concave counts.
pub fn pile(table: &[u16], cap: u32, coverage: Coverage, counts: ConcaveCounts) -> Pile<'_>
    ensures whole { (s : List FrameOf) → ⟦<Pile<'static> as Objective>⟧.value result s ≡ pile_value table.now cap (⟦<Coverage as Objective>⟧.value coverage) (⟦<ConcaveCounts as Objective>⟧.value counts) s }
    ensures left { (s : List FrameOf) → ⟦<Pile<'static> as Objective>⟧.residual result s ≡ pile_value table.now cap (⟦<Coverage as Objective>⟧.value coverage) (⟦<ConcaveCounts as Objective>⟧.value counts) s }
{
    let likeness = Capped::new(FacilityLocation::new(table), cap);
    Sum::new(likeness, Sum::new(coverage, counts))
}
