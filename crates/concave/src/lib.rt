#![tactic(auto)]

pub mod counts;
mod setting;
