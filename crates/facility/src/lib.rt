#![tactic(auto)]

pub mod location;
