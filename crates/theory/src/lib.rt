#![tactic(auto)]

ghost use Rattle.theory.specs.Promise.{Stands};

// Computes nothing: its contract asks for the proof of all that a replay promises, for every element type, objective
// and matroid.
pub fn replay_stands<T>()
    ensures { Stands T }
{}
