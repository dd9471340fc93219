ghost use Rattle.std.specs.Prelude.{◌≡◌, ◌≤◌};
ghost use Rattle.kept.specs.Sizes.{size_answer, number_in};

use crate::size::Size;
use frames::entry::MOST_KEPT;
use frames::refusal::Refusal;

impl Size {
    pub fn new(n: usize) -> Result<Size, Refusal>
        ensures { number_in result ≡ size_answer n }
    {
        if (1..=MOST_KEPT).contains(&n) {
            Ok(Size { n })
        } else {
            Err(Refusal::BadSize)
        }
    }

    pub fn get(self) -> usize
        ensures value { result ≡ self.n }
        ensures low { 1 ≤ result }
        ensures high { result ≤ 48 }
    {
        self.n
    }
}
