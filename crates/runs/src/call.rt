use exchange::outcome::Outcome;
use faults::fault::TextFault;
use frames::entry::Entry;
use frames::frame::Frame;
use frames::refusal::Refusal;
use report::counts::Counts;

// A call of an open picker.
#[derive(Clone, Copy)]
pub enum Call<'a> {
    Offer(Frame),
    Text(&'a [u8]),
    Look(usize),
    Counts,
    Print,
    Clear,
}

// What a call answered.
#[derive(Clone, Copy, PartialEq, Eq, Debug)]
pub enum Answer {
    Offered(Result<Outcome, Refusal>),
    Texted(Result<usize, TextFault>),
    Looked(Result<Entry, Refusal>),
    Counted(Counts),
    Printed(Result<usize, Refusal>),
    Cleared,
}
