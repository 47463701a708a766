// Tick: the timer of the active server.
#![tactic(auto)]

pub mod tick;
