#![tactic(auto)]

pub mod append;
