// Writing IPDR/SP's messages.
#![tactic(auto)]

pub mod write;
