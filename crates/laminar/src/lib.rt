#![tactic(auto)]

pub mod laminar;
mod tree;
