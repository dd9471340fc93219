ghost use Rattle.std.specs.Prelude.{length};
ghost use Rattle.std.specs.Iterator.{at_most};
ghost use Rattle.serving.specs.Requests.{NextCall};

use encoding::read::read_request;
use encoding::request::Request;

// The calls that bytes are, one after another: it ends where the bytes that are left begin with no call.
#[derive(Drop)]
pub(crate) struct Requests<'a> {
    pub(crate) rest: &'a [u8],
}

impl<'a> Iterator for Requests<'a> {
    type Item = Request<'a>;

    ghost next_gives = { λ s x t. NextCall s.rest.now x t.rest.now };

    ghost remaining = { λ s. at_most (length s.rest.now) };

    fn next(&mut self) -> Option<Request<'a>> {
        let request = read_request(self.rest)?;
        self.rest = &self.rest[request.length..];
        Some(request)
    }
}
