ghost use Rattle.records.specs.Format.{key_bytes};
ghost use Rattle.lines.specs.Lines.{Begun};

use records::key::Key;

// What follows the key due at the front of `s`, if it is there.
// A rule of the project: slice patterns, so the keys stand here byte by byte, and not as `Key::bytes`.
pub(crate) fn after_key(key: Key, s: &[u8]) -> Option<&[u8]>
    ensures { Begun (key_bytes key) s.now result }
{
    match key {
        Key::Number => match s {
            [b'f', b'r', b'a', b'm', b'e', b'=', rest @ ..] => Some(rest),
            _ => None,
        },
        Key::Marks => match s {
            [b'm', b'a', b'r', b'k', b's', b'=', rest @ ..] => Some(rest),
            _ => None,
        },
        Key::Look => match s {
            [b'l', b'o', b'o', b'k', b'=', rest @ ..] => Some(rest),
            _ => None,
        },
        Key::Lane => match s {
            [b'l', b'a', b'n', b'e', b'=', rest @ ..] => Some(rest),
            _ => None,
        },
        Key::Tail => match s {
            [b't', b'a', b'i', b'l', b'=', rest @ ..] => Some(rest),
            _ => None,
        },
        Key::Head => match s {
            [b'h', b'e', b'a', b'd', b'=', rest @ ..] => Some(rest),
            _ => None,
        },
        Key::Side => match s {
            [b's', b'i', b'd', b'e', b'=', rest @ ..] => Some(rest),
            _ => None,
        },
    }
}
