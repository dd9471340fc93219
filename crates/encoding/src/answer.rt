ghost use Rattle.std.specs.Prelude.{◌≡◌, ◌%◌};
ghost use Rattle.encoding.specs.Answers.{answer_bytes, counted_bytes, looked_bytes, offered_bytes, outcome_bytes, placed, printed_bytes, texted_bytes};
ghost use Rattle.encoding.specs.Requests.{frame_bytes};

use crate::put::put;
use exchange::outcome::Outcome;
use faults::fault::TextFault;
use frames::entry::Entry;
use frames::frame::Frame;
use frames::refusal::Refusal;
use report::counts::Counts;
use runs::call::Answer;
use spots::fault::Fault;

fn low_byte(n: usize) -> u8
    ensures { result ≡ n % 256 }
{
    (n % 256) as u8
}

fn frame_bytes(x: &Frame) -> [u8; 17]
    ensures { result ≡ frame_bytes x.now }
{
    let mut bytes = [0; 17];
    let last = [x.look, x.lane, x.tail, x.head, x.side];
    put(
        &[&x.number.to_le_bytes(), &x.marks.to_le_bytes(), &last],
        &mut bytes,
    );
    bytes
}

// No refusal, the outcome's number, the place, the gain, the gain it lost to, and the frame that left. The outcomes are
// numbered 0 to 4 by the byte format.
#[inline(always)]
fn put_outcome(outcome: &Outcome, out: &mut [u8])
    ensures { out.new ≡ placed (outcome_bytes outcome.now) out.old }
{
    match *outcome {
        Outcome::Empty => put(&[&[0; 28]], out),
        Outcome::Kept { place, gain } => put(
            &[&[0, 1, low_byte(place)], &gain.to_le_bytes(), &[0; 21]],
            out,
        ),
        Outcome::Swapped { place, gain, left } => put(
            &[
                &[0, 2, low_byte(place)],
                &gain.to_le_bytes(),
                &[0; 4],
                &frame_bytes(&left),
            ],
            out,
        ),
        Outcome::Light {
            place,
            gain,
            lost_to,
        } => {
            let (gain, lost_to) = (gain.to_le_bytes(), lost_to.to_le_bytes());
            put(&[&[0, 3, low_byte(place)], &gain, &lost_to, &[0; 17]], out)
        }
        Outcome::Barred { gain } => put(&[&[0, 4, 0], &gain.to_le_bytes(), &[0; 21]], out),
    }
}

#[inline(always)]
fn put_offered(answer: &Result<Outcome, Refusal>, out: &mut [u8])
    ensures { out.new ≡ placed (offered_bytes answer.now) out.old }
{
    match answer {
        Ok(outcome) => put_outcome(outcome, out),
        Err(refusal) => put(&[&[refusal.number()], &[0; 27]], out),
    }
}

// The refusal, how many records were offered, and the record, the line and the byte where the text stopped.
#[inline(always)]
fn put_texted(answer: &Result<usize, TextFault>, out: &mut [u8])
    ensures { out.new ≡ placed (texted_bytes answer.now) out.old }
{
    match *answer {
        Ok(n) => put(&[&[0], &n.to_le_bytes()[..4], &[0; 9]], out),
        Err(fault) => {
            let spot = fault.spot();
            put(
                &[
                    &[fault.refusal().number()],
                    &[0; 4],
                    &spot.record.to_le_bytes()[..4],
                    &[low_byte(spot.line)],
                    &spot.byte.to_le_bytes()[..4],
                ],
                out,
            )
        }
    }
}

// The refusal, the gain and the frame.
#[inline(always)]
fn put_looked(answer: &Result<Entry, Refusal>, out: &mut [u8])
    ensures { out.new ≡ placed (looked_bytes answer.now) out.old }
{
    match answer {
        Ok(entry) => put(
            &[&[0], &entry.gain.to_le_bytes(), &frame_bytes(&entry.frame)],
            out,
        ),
        Err(refusal) => put(&[&[refusal.number()], &[0; 21]], out),
    }
}

#[inline(always)]
fn put_counted(counts: &Counts, out: &mut [u8])
    ensures { out.new ≡ placed (counted_bytes counts.now) out.old }
{
    put(
        &[
            &counts.size.to_le_bytes(),
            &counts.kept.to_le_bytes(),
            &counts.took.to_le_bytes(),
            &counts.seen.to_le_bytes(),
            &counts.gain.to_le_bytes(),
            &counts.told.to_le_bytes(),
        ],
        out,
    );
}

// The refusal, and the length of the print-out.
#[inline(always)]
fn put_printed(answer: &Result<usize, Refusal>, out: &mut [u8])
    ensures { out.new ≡ placed (printed_bytes answer.now) out.old }
{
    match answer {
        Ok(n) => put(&[&[0], &n.to_le_bytes()[..4]], out),
        Err(refusal) => put(&[&[refusal.number()], &[0; 4]], out),
    }
}

// Writes an answer at the front of `out`, if it has room for it. Inlined, as all the writers above: an answer is then written
// from the values that it is made of, and not put together in memory first.
#[inline(always)]
#[tactic(auto, unfolding(crate::specs::Answers::answer_bytes, crate::specs::Answers::placed))]
pub fn put_answer(answer: &Answer, out: &mut [u8])
    ensures { out.new ≡ placed (answer_bytes answer.now) out.old }
{
    match answer {
        Answer::Offered(answer) => put_offered(answer, out),
        Answer::Texted(answer) => put_texted(answer, out),
        Answer::Looked(answer) => put_looked(answer, out),
        Answer::Counted(counts) => put_counted(counts, out),
        Answer::Printed(answer) => put_printed(answer, out),
        Answer::Cleared => {}
    }
}
