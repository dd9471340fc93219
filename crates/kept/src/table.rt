use arrayvec::ArrayVec;
use frames::entry::{Entry, MOST_KEPT};
use std::marker::Model;

// The kept frames with their gains, by place. A contract sees the table as the list of its entries.
#[derive(Drop)]
pub struct KeptTable {
    pub(crate) entries: ArrayVec<Entry, MOST_KEPT>,
}

impl Model for KeptTable {
    ghost use Rattle.std.specs.Prelude.{List, length, ◌≤◌};
    ghost use Rattle.frames.specs.declared.entry.Entry.{Entry as EntryOf};

    ghost Value = { List EntryOf };

    ghost view = { λ t. t.entries.items };

    ghost invariant = { λ t. length t.entries.items ≤ 48 };
}

// There is no place left in the table.
#[derive(Clone, Copy, PartialEq, Eq, Debug)]
pub struct TableFull;
