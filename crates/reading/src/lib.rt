#![tactic(auto)]

mod next;
mod progress;
pub mod reader;
