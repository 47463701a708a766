// What tests and benchmarks in Rust call of the crate `editions`: a function of numbers and slices alone, since no struct or enum crosses
// the boundary to C. It answers any octets and numbers.
#![tactic(auto)]

pub mod edition_calls;
