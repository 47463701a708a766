// What tests and benchmarks in Rust call of the crate `wire`: functions of numbers and slices alone, since no struct or enum crosses the
// boundary to C. Each gives back as a number what the crate answers, and one part of it at a time where it has several. The functions named
// `crane_` are those that a C or Rust program links, through `exports_c`; they answer any octets and numbers.
#![tactic(auto)]

pub mod fields;
pub mod message_calls;
pub mod parts;
pub mod table_calls;
