ghost use Rattle.exports.specs.Plain.{ExportedStands};

// Computes nothing: its contract asks for the proof of what an exported call comes to, by its number alone.
pub fn exported_stands()
    ensures { ExportedStands }
{}
