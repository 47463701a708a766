// The header that CRANE's and IPDR/SP's messages begin with. The editions' headers differ in the version alone.
#![tactic(auto)]

pub mod header;
