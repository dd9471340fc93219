ghost use Rattle.std.specs.Prelude.{◌≡◌, ◌-◌, ◌^◌, min, length};
ghost use Rattle.matroids.specs.Chosen.{chosen};

use frames::frame::Frame;

// How many frames are at the places of the set; bit i of the set is place i.
pub fn chosen_count(frames: &[Frame], places: u64) -> u32
    ensures { result ≡ length (chosen frames.now places) }
{
    (places & places_below(frames.len())).count_ones()
}

// The set of the places below n.
pub fn places_below(n: usize) -> u64
    ensures { result ≡ 2 ^ min n 64 - 1 }
{
    if n >= 64 { u64::MAX } else { (1 << n) - 1 }
}
