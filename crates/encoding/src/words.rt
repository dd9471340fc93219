ghost use Rattle.encoding.specs.Reading.{Framed, Word};

use frames::frame::Frame;

// The number that the first four bytes write, the lowest first.
pub(crate) fn u32_in(bytes: &[u8]) -> Option<u32>
    ensures { Word bytes.now result }
{
    let word = bytes.first_chunk()?;
    Some(u32::from_le_bytes(*word))
}

// The frame that the first 17 bytes are.
pub(crate) fn frame_in(bytes: &[u8]) -> Option<Frame>
    ensures { Framed bytes.now result }
{
    let (number, rest) = bytes.split_first_chunk()?;
    let (marks, rest) = rest.split_first_chunk()?;
    let [look, lane, tail, head, side] = *rest.first_chunk::<5>()?;
    Some(Frame {
        number: u32::from_le_bytes(*number),
        marks: u64::from_le_bytes(*marks),
        look,
        lane,
        tail,
        head,
        side,
    })
}
