ghost use Rattle.encoding.specs.Requests.{OneReading};

// Computes nothing: its contract asks for the proof that no bytes are two different lists of calls.
pub fn encoding_stands()
    ensures { OneReading }
{}
