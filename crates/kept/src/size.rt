ghost use Rattle.std.specs.Prelude.{◌≤◌};

// How many frames a picker may keep: 1 to 48. Tried with an `impl Model`: the borrow checker then has no rule for a function
// that takes by value a struct of a size and an objective that borrows.
#[derive(Clone, Copy)]
pub struct Size {
    pub(crate) n: usize,
    ghost low: { 1 ≤ n },
    ghost high: { n ≤ 48 },
}
