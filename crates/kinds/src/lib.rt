#![tactic(auto)]

ghost use Rattle.kinds.specs.Claims.{ObjectivesStand, MatroidsStand};

// Computes nothing: its contract asks for the proof that each kind of objective keeps the laws, that what added frames
// leave of it keeps them too, and how a further frame changes what is left.
pub fn objectives_stand<T>()
    ensures { ObjectivesStand T }
{}

// Computes nothing: its contract asks for the proof that each kind of matroid keeps the laws.
pub fn matroids_stand<T>()
    ensures { MatroidsStand T }
{}
