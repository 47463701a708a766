// What every crate shares: the order of a number's octets, and why calls are refused; in specs/ the answer numbers and how refusals are
// judged, tests of every number below a bound, and numbers and octets at a place; in proofs/ their laws. `octets` passes them on.
#![tactic(auto)]

pub mod refusal;

// The order in which the octets of a number stand: the most significant first, or the least significant first.
#[derive(Clone, Copy, Debug, PartialEq, Eq)]
pub enum OctetOrder {
    BigEndian,
    LittleEndian,
}
