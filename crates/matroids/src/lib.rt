#![tactic(auto)]

pub mod count;
pub mod matroid;
pub mod partition;
pub mod room;
