#![tactic(auto)]

pub mod read_record;
