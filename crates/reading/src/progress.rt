ghost use Rattle.std.specs.Prelude.{◌≡◌, ℕ};
ghost use Rattle.reading.specs.Of.{text_of, start_of, count_of};

use crate::reader::Records;

impl<'a> Records<'a> {
    // All of a text's records are still to be read.
    pub fn new(text: &'a [u8]) -> Records<'a>
        ensures text { text_of result ≡ text.now }
        ensures start { start_of result ≡ 0 }
        ensures count { count_of result ≡ 0 }
    {
        Records {
            text,
            at: 0,
            count: 0,
        }
    }

    // The byte where the next record starts.
    pub fn start(&self) -> usize
        ensures { result ≡ start_of self.now }
    {
        self.at
    }

    // How many records were read.
    pub fn count(&self) -> usize
        ensures { result ≡ count_of self.now }
    {
        self.count
    }
}
