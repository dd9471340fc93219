#![tactic(auto)]

pub mod direct_sum;
pub mod truncation;
