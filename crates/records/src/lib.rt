// Records under a template: whether one is valid, and the walk over its fields.
#![tactic(auto)]

pub mod record;
pub mod walk;
mod within;
