#![tactic(auto)]

pub mod entry;
pub mod frame;
pub mod refusal;
pub mod setting;
