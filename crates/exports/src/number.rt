ghost use Rattle.std.specs.Prelude.{◌≡◌, ◌<◌, ◌^◌};
ghost use Rattle.std.specs.Result.{IfOk};
ghost use Rattle.exports.specs.Piles.{refused_as, served_as};

use crate::fault::ArgumentFault;
use serving::refusal::RunRefusal;

impl ArgumentFault {
    // As a number, since C is told one: the refusal, the argument's place, and the index in it.
    pub(crate) fn number(self) -> u64
        ensures { result ≡ refused_as self }
    {
        self.fault.refusal.number() as u64
            + 256 * self.place as u64
            // the upper 48 bits, in which `serving` tells the bytes of answers
            + 65_536 * (self.fault.index as u64 % 281_474_976_710_656)
    }
}

// What a run returned, as a number: how many bytes the answers take, or the refusal.
pub(crate) fn run_number(ran: Result<u64, RunRefusal>) -> u64
    requires { IfOk ran (λ due. due < 2 ^ 48) }
    ensures { result ≡ served_as ran }
{
    match ran {
        Ok(due) => 65_536 * due,
        Err(refusal) => refusal as u64,
    }
}
