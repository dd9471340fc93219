#![tactic(auto)]

mod bid;
pub mod judge;
pub mod outcome;
mod rows;
