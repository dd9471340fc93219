#![tactic(auto)]

pub mod refusal;
mod requests;
pub mod serve;
