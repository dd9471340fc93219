ghost use Rattle.std.specs.Prelude.{◌≡◌};
ghost use Rattle.std.specs.Result.{IfOk, result_err};
ghost use Rattle.exports.specs.Opening.{Opens};
ghost use Rattle.exports.specs.Piles.{capped_facility, capped_facility_laminar_fault, concave_coverage, concave_graphic_fault, coverage_of, coverage_partition_fault, graphic_partition, partition_of, truncated_laminar};

use crate::fault::ArgumentFault;
use crate::settings::{Settings, argument, size_of};
use composites::capped::Capped;
use composites::sum::Sum;
use concave::counts::ConcaveCounts;
use facility::location::FacilityLocation;
use graphic::graphic::GraphicMatroid;
use laminar::laminar::LaminarMatroid;
use matroids::matroid::Matroid;
use matroids::partition::PartitionMatroid;
use objectives::coverage::Coverage;
use objectives::objective::Objective;
use operations::direct_sum::DirectSum;
use operations::truncation::Truncation;

pub type CappedFacility<'a> = Sum<Capped<Coverage>, FacilityLocation<'a>>;

pub type TruncatedLaminar = Truncation<LaminarMatroid>;

pub type ConcaveCoverage = Sum<ConcaveCounts, Coverage>;

pub type GraphicPartition = DirectSum<GraphicMatroid, PartitionMatroid>;

// Coverage over a partition matroid.
pub fn coverage_partition(
    size: u32,
    weights: &[u32],
    caps: &[u32],
) -> Result<Settings<Coverage, PartitionMatroid>, ArgumentFault>
    ensures fault { result_err result ≡ coverage_partition_fault size weights.now caps.now }
    ensures opened { IfOk result (λ s. Opens ⟦<Coverage as Objective>⟧ ⟦<PartitionMatroid as Matroid>⟧ s size (coverage_of weights.now) (partition_of caps.now)) }
{
    Ok(Settings {
        size: size_of(size)?,
        objective: argument(2, Coverage::new(weights))?,
        matroid: argument(3, PartitionMatroid::new(caps))?,
    })
}

// The sum of coverage under a cap and facility location, over a truncated laminar matroid.
pub fn capped_facility_laminar<'a>(
    size: u32,
    weights: &[u32],
    cap: u32,
    table: &'a [u16],
    most: u32,
    caps: &[u32],
    parents: &[u32],
) -> Result<Settings<CappedFacility<'a>, TruncatedLaminar>, ArgumentFault>
    ensures fault { result_err result ≡ capped_facility_laminar_fault size weights.now most caps.now parents.now }
    ensures opened { IfOk result (λ s. Opens ⟦<CappedFacility<'a> as Objective>⟧ ⟦<TruncatedLaminar as Matroid>⟧ s size (capped_facility weights.now cap table.now) (truncated_laminar most caps.now parents.now)) }
{
    let size = size_of(size)?;
    let coverage = argument(2, Coverage::new(weights))?;
    let laminar = argument(6, LaminarMatroid::new(caps, parents))?;
    let matroid = argument(5, Truncation::new(most, laminar))?;
    Ok(Settings {
        size,
        objective: Sum::new(Capped::new(coverage, cap), FacilityLocation::new(table)),
        matroid,
    })
}

// The sum of concave counts and coverage, over the direct sum of the graphic matroid and a partition matroid.
pub fn concave_graphic(
    size: u32,
    steps: &[u32],
    weights: &[u32],
    caps: &[u32],
) -> Result<Settings<ConcaveCoverage, GraphicPartition>, ArgumentFault>
    ensures fault { result_err result ≡ concave_graphic_fault size steps.now weights.now caps.now }
    ensures opened { IfOk result (λ s. Opens ⟦<ConcaveCoverage as Objective>⟧ ⟦<GraphicPartition as Matroid>⟧ s size (concave_coverage steps.now weights.now) (graphic_partition caps.now)) }
{
    let size = size_of(size)?;
    let counts = argument(2, ConcaveCounts::new(steps))?;
    let coverage = argument(3, Coverage::new(weights))?;
    let partition = argument(4, PartitionMatroid::new(caps))?;
    Ok(Settings {
        size,
        objective: Sum::new(counts, coverage),
        matroid: DirectSum {
            first: GraphicMatroid,
            second: partition,
        },
    })
}
