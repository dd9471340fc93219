#![tactic(auto)]

pub mod digits;
pub mod key;
pub mod line;
pub mod line_feed;
pub mod stands;
