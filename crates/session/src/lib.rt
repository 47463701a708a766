// The state of the exporting side of one CRANE session, with no code: its types, and in specs/ and proofs/ what every call means and the
// claim over every list of calls.
#![tactic(auto)]

pub mod limits;
pub mod state;
