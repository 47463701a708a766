// Reading CRANE's messages.
#![tactic(auto)]

pub mod read;
