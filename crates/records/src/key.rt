ghost use Rattle.std.specs.Prelude.{◌≡◌};
ghost use Rattle.records.specs.Format.{key_bytes};

// The seven lines of a record in their order, each with its number in the record.
#[derive(Clone, Copy, PartialEq, Eq, Debug)]
pub enum Key {
    Number = 1,
    Marks,
    Look,
    Lane,
    Tail,
    Head,
    Side,
}

impl Key {
    // The bytes before the value.
    pub fn bytes(self) -> &'static [u8]
        ensures { result.now ≡ key_bytes self }
    {
        match self {
            Key::Number => b"frame=",
            Key::Marks => b"marks=",
            Key::Look => b"look=",
            Key::Lane => b"lane=",
            Key::Tail => b"tail=",
            Key::Head => b"head=",
            Key::Side => b"side=",
        }
    }
}
