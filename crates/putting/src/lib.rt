// Put: a record into the queue.
#![tactic(auto)]

pub mod put;
