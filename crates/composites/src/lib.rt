#![tactic(auto)]

pub mod capped;
pub mod sum;
