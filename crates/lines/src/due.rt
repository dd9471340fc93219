ghost use Rattle.std.specs.Prelude.{◌≡◌};
ghost use Rattle.spots.specs.Faults.{spot as spot_at};
ghost use Rattle.records.specs.Format.{longest};
ghost use Rattle.records.specs.Reading.{line_of};

use crate::place::Place;
use records::key::Key;
use spots::fault::Spot;

// A line that is due: its key, the byte where it starts, and the record that it is in.
#[derive(Clone, Copy)]
pub(crate) struct Due {
    pub(crate) key: Key,
    pub(crate) at: usize,
    pub(crate) place: Place,
}

impl Due {
    // How many bytes the longest value has.
    pub(crate) fn longest(self) -> usize
        ensures { result ≡ longest self.key }
    {
        match self.key {
            Key::Number => 10,
            Key::Marks => 16,
            Key::Look | Key::Tail | Key::Head => 3,
            Key::Lane => 2,
            Key::Side => 1,
        }
    }

    // A byte of the line.
    pub(crate) fn spot(self, byte: usize) -> Spot
        ensures { result ≡ spot_at self.place.«record» (line_of self.key) byte }
    {
        Spot {
            record: self.place.record,
            line: self.key as usize,
            byte,
        }
    }
}
