#![tactic(auto)]

mod arrival;
mod clear;
mod looks;
mod offer;
mod opening;
pub mod picker;
mod shift;
mod text;
