use crate::call::Answer;
use picker::picker::Picker;

// What a run of calls leaves: the picker, and what the last call answered.
#[derive(Drop)]
pub struct Ran<W, R> {
    pub picker: Picker<W, R>,
    pub answer: Option<Answer>,
}
