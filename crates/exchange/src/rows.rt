ghost use Rattle.std.specs.Prelude.{◌≡◌, ◌-◌, ◌^◌, ◌<◌, ◌≤◌, [], ◌∷◌, length};
ghost use Rattle.theory.specs.Replay.{frames};
ghost use Rattle.kept.specs.Tables.{held};

use arrayvec::ArrayVec;
use frames::frame::Frame;
use kept::table::KeptTable;
use matroids::count::places_below;

// The set of the first `n` places but for `p`.
pub(crate) fn all_but(n: usize, p: usize) -> u64
    requires n { n ≤ 49 }
    requires p { p < n }
    ensures { result ≡ 2 ^ n - 1 - 2 ^ p }
{
    places_below(n) - (1 << p)
}

// Lines up `x`, and the kept frames behind it, in an empty row.
pub(crate) fn line_up<const N: usize>(x: Frame, table: &KeptTable, row: &mut ArrayVec<Frame, N>)
    requires empty { row.old.items ≡ [] }
    requires room { length table.now < N }
    ensures { row.new.items ≡ x ∷ frames (held table.now) }
{
    row.push(x);
    for entry in table.entries() {
        row.push(entry.frame);
    }
}
