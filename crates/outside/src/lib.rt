#![tactic(auto)]

pub mod atmost;
pub mod counting;
pub mod framecount;
