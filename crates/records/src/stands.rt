ghost use Rattle.records.specs.Claims.{ReadingStands};

// Computes nothing: its contract asks for the proof that what is printed reads back, and that what was read is what is
// printed: of a line, of a record, and of a text.
pub fn reading_stands()
    ensures { ReadingStands }
{}
