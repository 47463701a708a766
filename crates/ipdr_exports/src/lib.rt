// What tests in Rust call of IPDR/SP's reading: a function of numbers and slices alone, since no struct or enum crosses the boundary to C.
// It answers any octets and numbers.
#![tactic(auto)]

pub mod ipdr_calls;
