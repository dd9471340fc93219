#![tactic(auto)]

pub mod call;
pub mod ran;
pub mod run;
pub mod stands;
