// Why sizes, offers, look-ups and texts are declined.
use crate::play::{RECORD, opened, play, seen_of, shot};
use exchange::outcome::Outcome;
use faults::fault::{RecordFault, TextFault};
use frames::frame::Frame;
use frames::refusal::Refusal;
use kept::size::Size;
use runs::call::{Answer, Call};
use spots::fault::{LineFault, Spot};
use std::test::*;

#[test]
fn sizes_from_1_to_48(rt: HostRuntime) -> Result<(), Fail> {
    let answers = [
        (0, Err(Refusal::BadSize)),
        (1, Ok(1)),
        (48, Ok(48)),
        (49, Err(Refusal::BadSize)),
        (usize::MAX, Err(Refusal::BadSize)),
    ];
    for (n, answer) in answers {
        assert_eq!(rt; Size::new(n).map(|size| size.get()), answer);
    }
    Ok(())
}

#[test]
fn declined_calls(rt: HostRuntime) -> Result<(), Fail> {
    let mut picker = opened()?;
    let x = shot(3, 0);
    let side_2 = Frame { side: 2, ..x };
    let steps = [
        (Call::Look(0), Answer::Looked(Err(Refusal::NoPlace))),
        (
            Call::Offer(x),
            Answer::Offered(Ok(Outcome::Kept { place: 0, gain: 3 })),
        ),
        (Call::Look(1), Answer::Looked(Err(Refusal::NoPlace))),
        (
            Call::Look(usize::MAX),
            Answer::Looked(Err(Refusal::NoPlace)),
        ),
        (
            Call::Offer(shot(4, 64)),
            Answer::Offered(Err(Refusal::Over)),
        ),
        (Call::Offer(side_2), Answer::Offered(Err(Refusal::Over))),
        (Call::Text(&[]), Answer::Texted(Ok(0))),
        (Call::Text(RECORD), Answer::Texted(Ok(1))),
    ];
    play(&rt, &mut picker, &steps)?;
    let long = [b'f'; 65_537];
    let before = seen_of(&picker)?;
    assert_eq!(rt; picker.offer_text(&long), Err(TextFault::LongText));
    let after = seen_of(&picker)?;
    assert!(rt; after == before);
    // a text of 65,536 bytes is looked into
    let spot = Spot {
        record: 1,
        line: 1,
        byte: 1,
    };
    let wrong_key = TextFault::Record(RecordFault::Line(LineFault::WrongKey(spot)));
    assert_eq!(rt; picker.offer_text(&long[1..]), Err(wrong_key));
    Ok(())
}

#[test]
fn refusal_numbers(rt: HostRuntime) -> Result<(), Fail> {
    let refusals = [
        Refusal::BadSize,
        Refusal::ShiftFull,
        Refusal::NoPlace,
        Refusal::ShortSheet,
        Refusal::WrongKey,
        Refusal::BadForm,
        Refusal::Over,
        Refusal::Cut,
        Refusal::LongText,
        Refusal::Miscount,
        Refusal::Rising,
        Refusal::BadParent,
    ];
    for (i, refusal) in refusals.iter().enumerate() {
        assert_eq!(rt; usize::from(refusal.number()), i + 1);
    }
    Ok(())
}
