ghost use Rattle.std.specs.Prelude.{◌≡◌, ◌*◌, ◌≤◌, true, length};
ghost use Rattle.kept.specs.Tables.{held};
ghost use Rattle.picker.specs.Entries.{sound, total};

use kept::size::Size;
use kept::table::KeptTable;

// One pass over the frames of a shift: at most `size` of them are kept, and no passed frame comes back.
#[derive(Drop)]
pub struct Picker<W, R> {
    pub(crate) objective: W,
    pub(crate) matroid: R,
    pub(crate) table: KeptTable,
    pub(crate) size: Size,
    // accepted frames, taken-in frames, and the gains of the kept and of all accepted frames; apart, as the facts below tie
    // each to the table or to another
    pub(crate) took: u32,
    pub(crate) seen: u32,
    pub(crate) gain: u64,
    pub(crate) told: u64,
    ghost room: { length (held table) ≤ size.n },
    ghost kept: { sound (held table) ≡ true },
    ghost taken: { took ≤ seen },
    ghost bound: { seen ≤ 1000000 },
    ghost gains: { gain ≡ total (held table) },
    ghost less: { gain ≤ told },
    ghost most: { told ≤ took * 4294967295 },
}
