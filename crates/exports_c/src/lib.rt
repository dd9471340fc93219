#![tactic(auto)]

ghost use Rattle.std.specs.Prelude.{◌≡◌, ◌≢◌, ◌%◌};
ghost use Rattle.exports.specs.Piles.{Exported, capped_facility, capped_facility_laminar_fault, concave_coverage, concave_graphic_fault, coverage_of, coverage_partition_fault, graphic_partition, partition_of, truncated_laminar};

use exports::opened::{capped_facility_laminar, concave_graphic, coverage_partition};
use exports::run::run;

// Each answers the number that C is told. Clause `refused` says without the word `Exported` what a weaker definition of that
// would lose.

// Coverage over a partition matroid.
#[unsafe(no_mangle)]
pub extern "C" fn fogetsu_coverage_partition(
    size: u32,
    weights: &[u32],
    caps: &[u32],
    calls: &[u8],
    answers: &mut [u8],
) -> u64
    ensures exported { Exported (coverage_partition_fault size weights.now caps.now) (coverage_of weights.now) (partition_of caps.now) size calls.now answers.old result answers.new }
    ensures refused { result % 65536 ≢ 0 → answers.new ≡ answers.old }
{
    run(coverage_partition(size, weights, caps), calls, answers)
}

// The sum of coverage under a cap and facility location, over a truncated laminar matroid.
#[unsafe(no_mangle)]
pub extern "C" fn fogetsu_capped_facility_laminar(
    size: u32,
    weights: &[u32],
    cap: u32,
    table: &[u16],
    most: u32,
    caps: &[u32],
    parents: &[u32],
    calls: &[u8],
    answers: &mut [u8],
) -> u64
    ensures exported { Exported (capped_facility_laminar_fault size weights.now most caps.now parents.now) (capped_facility weights.now cap table.now) (truncated_laminar most caps.now parents.now) size calls.now answers.old result answers.new }
    ensures refused { result % 65536 ≢ 0 → answers.new ≡ answers.old }
{
    run(
        capped_facility_laminar(size, weights, cap, table, most, caps, parents),
        calls,
        answers,
    )
}

// The sum of concave counts and coverage, over the direct sum of the graphic matroid and a partition matroid.
#[unsafe(no_mangle)]
pub extern "C" fn fogetsu_concave_graphic(
    size: u32,
    steps: &[u32],
    weights: &[u32],
    caps: &[u32],
    calls: &[u8],
    answers: &mut [u8],
) -> u64
    ensures exported { Exported (concave_graphic_fault size steps.now weights.now caps.now) (concave_coverage steps.now weights.now) (graphic_partition caps.now) size calls.now answers.old result answers.new }
    ensures refused { result % 65536 ≢ 0 → answers.new ≡ answers.old }
{
    run(concave_graphic(size, steps, weights, caps), calls, answers)
}
