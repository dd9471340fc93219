ghost use Rattle.std.specs.Prelude.{◌≡◌, Bool, true, ◌&&◌, List, [], ◌∷◌};
ghost use Rattle.frames.specs.declared.frame.Frame.{Frame as FrameOf};
ghost use Rattle.matroids.specs.Chosen.{chosen};

use frames::frame::Frame;

// The room that the frames taken so far leave: which lists of further frames it has a place for.
pub trait Room: Drop {
    ghost admits: { Self → List FrameOf → Bool };

    // Whether x fits. A frame that fits is taken, and leaves less room. After `false` the room is not asked again, so
    // nothing is said of what is left then.
    fn takes(&mut self, x: &Frame) -> bool
        ensures { (s : List FrameOf) → admits self.old (x.now ∷ s) ≡ (result && admits self.new s) };

    // no frame needs no room
    ghost nothing: { (room : Self) → admits room [] ≡ true };
}

// Whether the room takes the frames at the places of the set, one by one; bit i of the set is place i.
pub fn takes_chosen<R: Room>(mut room: R, frames: &[Frame], places: u64) -> bool
    ensures { result ≡ R.admits room (chosen frames.now places) }
{
    let mut rest = places;
    while rest != 0 {
        // past the end of the list no place has a frame
        let Some(x) = frames.get(rest.trailing_zeros() as usize) else {
            break;
        };
        if !room.takes(x) {
            return false;
        }
        // without its lowest place
        rest &= rest - 1;
    }
    true
}
