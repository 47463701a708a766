// Messages of either edition, CRANE's and IPDR/SP 2.2's, read and written alone. Reading is told the edition; a message to be written says
// by its type which edition it belongs to, so that the two cannot disagree. The exporter knows CRANE's alone.
//
// A crate that makes or matches a message lists beside this one the crates that declare the editions' messages: `headers` and `messages`
// for CRANE, `ipdr` for IPDR/SP.
#![tactic(auto)]

pub mod edition;
