ghost use Rattle.std.specs.Prelude.{◌≡◌, ◌<◌, ◌≤◌, length};
ghost use Rattle.exchange.specs.Outcomes.{outcome_of, PlaceStands};
ghost use Rattle.kept.specs.Tables.{held};

use crate::bid::Bid;
use crate::outcome::Outcome;
use crate::rows::line_up;
use arrayvec::ArrayVec;
use frames::entry::MOST_KEPT;
use frames::frame::Frame;
use kept::size::Size;
use kept::table::KeptTable;
use matroids::matroid::Matroid;

// How many frames a short row holds, and how many the longest: a newcomer, and the kept frames behind it.
const SHORT: usize = 8;

const LONGEST: usize = MOST_KEPT + 1;

// What becomes of `x`, of the given gain, beside the kept frames. A frame of gain 0 asks the matroid nothing.
#[inline(always)]
pub fn judge<R: Matroid>(matroid: &R, size: Size, table: &KeptTable, x: Frame, gain: u32) -> Outcome
    ensures outcome { result ≡ outcome_of (R.Matroid.admits matroid.now) size.n (held table.now) x gain }
    ensures place { PlaceStands (R.Matroid.admits matroid.now) (held table.now) x result }
{
    if gain == 0 {
        return Outcome::Empty;
    }
    // a new row has all its places cleared, so a short one serves where few frames are kept
    if table.len() < SHORT {
        judge_lined::<R, SHORT>(matroid, size, table, x, gain)
    } else {
        judge_lined::<R, LONGEST>(matroid, size, table, x, gain)
    }
}

// The same of a frame with a gain, lined up before the kept frames in a row of so many places.
#[inline(always)]
fn judge_lined<R: Matroid, const N: usize>(
    matroid: &R,
    size: Size,
    table: &KeptTable,
    x: Frame,
    gain: u32,
) -> Outcome
    requires gain { 0 < gain }
    requires room { length table.now < N }
    requires short { N ≤ 49 }
    ensures outcome { result ≡ outcome_of (R.Matroid.admits matroid.now) size.n (held table.now) x gain }
    ensures place { PlaceStands (R.Matroid.admits matroid.now) (held table.now) x result }
{
    let mut row = ArrayVec::<Frame, N>::new();
    line_up(x, table, &mut row);
    let bid = Bid {
        matroid,
        table,
        frame: x,
        gain,
        row: row.as_slice(),
    };
    if bid.has_room(size) {
        return Outcome::Kept {
            place: table.len(),
            gain,
        };
    }
    match bid.lightest() {
        None => Outcome::Barred { gain },
        Some(place) => bid.contest(place),
    }
}
