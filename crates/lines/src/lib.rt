#![tactic(auto)]

mod after_key;
mod due;
mod line_fault;
mod number;
pub mod place;
pub mod read_line;
mod value;
mod written;
