// Reading IPDR/SP's messages.
#![tactic(auto)]

pub mod read;
