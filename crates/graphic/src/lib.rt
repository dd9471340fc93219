#![tactic(auto)]

pub mod graphic;
