ghost use Rattle.std.specs.Prelude.{◌≡◌, ◌≤◌, [], ◌∷◌, ◌++◌, length, Ok as OkOf, Err as ErrOf, if◌then◌else◌, nat_lt, slice_set};
ghost use Rattle.std.specs.List.{slice_get};
ghost use Rattle.kept.specs.Tables.{held, gain_at, table_full};

use crate::table::{KeptTable, TableFull};
use arrayvec::ArrayVec;
use frames::entry::Entry;

impl KeptTable {
    pub fn new() -> KeptTable
        ensures { result ≡ [] }
    {
        KeptTable {
            entries: ArrayVec::new(),
        }
    }

    // How many are kept.
    pub fn len(&self) -> usize
        ensures value { result ≡ length self.now }
        ensures fits { result ≤ 48 }
    {
        self.entries.len()
    }

    // The entry at a place, if one is kept there.
    pub fn get(&self, place: usize) -> Option<Entry>
        ensures { result ≡ slice_get self.now place }
    {
        self.entries().get(place).copied()
    }

    // All entries, by place.
    pub fn entries(&self) -> &[Entry]
        ensures value { result.now ≡ self.now }
        ensures fits { length result.now ≤ 48 }
    {
        self.entries.as_slice()
    }

    // One entry more in the next place; nothing changes where 48 are kept.
    pub fn push(&mut self, e: Entry) -> Result<(), TableFull>
        ensures room { result ≡ (if nat_lt (length self.old) 48 then OkOf tt else ErrOf table_full) }
        ensures after { self.new ≡ (if nat_lt (length self.old) 48 then self.old ++ e ∷ [] else self.old) }
    {
        self.entries.try_push(e).map_err(|_| TableFull)
    }

    // Writes an entry over the one at a place; nothing changes where none is kept there.
    pub fn replace(&mut self, place: usize, e: Entry)
        ensures { self.new ≡ slice_set self.old place e }
    {
        if let Some(entry) = self.entries.get_mut(place) {
            *entry = e;
        }
    }

    pub fn clear(&mut self)
        ensures { self.new ≡ [] }
    {
        self.entries.clear();
    }

    // The gain at a place, 0 where none is kept there. Its promise is over the definitions' number, which is 0 there too;
    // an `Option` would be another function, and `get` is that one.
    pub fn gain_at(&self, place: usize) -> u32
        ensures { result ≡ gain_at (held self.now) place }
    {
        self.get(place).map_or(0, |e| e.gain)
    }
}
