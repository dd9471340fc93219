#![tactic(auto)]

pub mod answer;
mod put;
pub mod read;
pub mod request;
pub mod stands;
mod words;
