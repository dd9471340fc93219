#![tactic(auto)]

ghost use Rattle.outside_laws.specs.Counts.{CountsStand};

// Computes nothing: its contract asks for the proof that the count up to a cap keeps the laws of an objective, and how a
// further frame changes what is left of it, and that the lists of at most so many frames keep the laws of a matroid.
pub fn counts_stand<T>()
    ensures { CountsStand T }
{}
