#![tactic(auto)]

pub mod coverage;
pub mod objective;
