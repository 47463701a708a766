// CRANE's messages, with no code: what each says and the lengths of its parts; in specs/ and proofs/ the layout of its octets, what octets
// mean, and that the two fit together.
#![tactic(auto)]

pub mod message;
