ghost use Rattle.runs.specs.Plain.{LabelStands};

// Computes nothing: its contract asks for the proof of what the promise of the label comes to in plain numbers.
pub fn label_stands()
    ensures { LabelStands }
{}
