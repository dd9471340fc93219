#![tactic(auto)]

pub mod fault;
mod number;
pub mod opened;
pub mod run;
pub mod settings;
pub mod stands;
