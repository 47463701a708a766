// Writing CRANE's messages.
#![tactic(auto)]

pub mod write;
