// Batches, with no code: in specs/ what sending a batch in one call is by its single calls, and what is claimed of it in every list of
// calls; in proofs/ that it holds (02, ask 5). `sending` has the call, `session` the state and what the call hands back.
#![tactic(auto)]
