#![tactic(auto)]

pub mod fault;
mod tells;
mod text;
