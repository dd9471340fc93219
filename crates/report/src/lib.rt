#![tactic(auto)]

pub mod counts;
mod kept;
mod line;
pub mod print;
mod value;
mod written;
