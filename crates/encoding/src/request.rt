ghost use Rattle.std.specs.Prelude.{◌≡◌, ◌+◌};
ghost use Rattle.runs.specs.Runs.{called};
ghost use Rattle.encoding.specs.Answers.{fixed_of};

use runs::call::Call;

// A call as it was read: how many bytes it takes, and how many its print-out may take.
#[derive(Clone, Copy)]
pub struct Request<'a> {
    pub call: Call<'a>,
    pub length: usize,
    pub room: usize,
}

impl<'a> Request<'a> {
    // A call without a print-out.
    pub(crate) fn silent(call: Call<'a>, length: usize) -> Request<'a>
        ensures call { called result.call ≡ called call.entry }
        ensures length { result.length ≡ length }
        ensures room { result.room ≡ 0 }
    {
        Request {
            call,
            length,
            room: 0,
        }
    }

    // How many bytes its answer takes in the byte format, beside the print-out.
    pub fn fixed(&self) -> usize
        ensures { result ≡ fixed_of (called self.now.call) }
    {
        match self.call {
            Call::Offer(_) => 28,
            Call::Text(_) => 14,
            Call::Look(_) => 22,
            Call::Counts => 32,
            Call::Print => 5,
            Call::Clear => 0,
        }
    }

    // How many bytes its answer takes with the print-out.
    pub fn due(&self) -> u128
        ensures { result ≡ fixed_of (called self.now.call) + self.now.room }
    {
        self.fixed() as u128 + self.room as u128
    }
}
