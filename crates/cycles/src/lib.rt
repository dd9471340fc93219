#![tactic(auto)]

ghost use Rattle.cycles.specs.Claims.{GraphicStands};

// Computes nothing: its contract asks for the proof that the bags of frames with no even part are those of a matroid, and
// that labels of stations tell them.
pub fn graphic_stands<T>()
    ensures { GraphicStands T }
{}
