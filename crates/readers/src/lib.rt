// A reader that holds a borrowed record and the place of a walk over it.
#![tactic(auto)]

pub mod reader;
