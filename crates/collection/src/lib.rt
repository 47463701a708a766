// The collecting side of a CRANE session, with no code: the state of a collector and an entry of its journal; in specs/ what each call does
// and what a journal's octets stand for; in proofs/ that the state stays sound, that an accepted record adds exactly its entry, and that a
// journal reads back.
#![tactic(auto)]

pub mod journal;
pub mod state;
