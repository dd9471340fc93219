ghost use Rattle.std.specs.Prelude.{◌∷◌};
ghost use Rattle.std.specs.Option.{option_copied};
ghost use Rattle.encoding.specs.Reading.{Reads, Texted};

use crate::request::Request;
use crate::words::{frame_in, u32_in};
use runs::call::Call;

// The text that a length and as many bytes are.
fn text_in(bytes: &[u8]) -> Option<&[u8]>
    ensures { Texted bytes.now (option_copied result) }
{
    let (length, rest) = bytes.split_first_chunk()?;
    rest.get(..u32::from_le_bytes(*length) as usize)
}

// The call of that kind that the bytes behind the kind begin with, if they do. A kind is a number of the byte format: an
// enum of kinds would be matched again at once, so it would be no plainer.
fn read_kind(kind: u8, rest: &[u8]) -> Option<Request<'_>>
    ensures { Reads (kind ∷ rest.now) result }
{
    match kind {
        1 => Some(Request::silent(Call::Offer(frame_in(rest)?), 18)),
        2 => {
            let text = text_in(rest)?;
            Some(Request::silent(Call::Text(text), 5 + text.len()))
        }
        3 => Some(Request::silent(Call::Look(u32_in(rest)? as usize), 5)),
        4 => Some(Request::silent(Call::Counts, 1)),
        5 => Some(Request {
            call: Call::Print,
            length: 5,
            room: u32_in(rest)? as usize,
        }),
        6 => Some(Request::silent(Call::Clear, 1)),
        _ => None,
    }
}

// The call that the bytes begin with, if they do.
pub fn read_request(bytes: &[u8]) -> Option<Request<'_>>
    ensures { Reads bytes.now result }
{
    let (kind, rest) = bytes.split_first()?;
    read_kind(*kind, rest)
}
