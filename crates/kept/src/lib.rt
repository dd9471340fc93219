#![tactic(auto)]

pub mod size;
mod sizing;
mod slots;
pub mod table;
