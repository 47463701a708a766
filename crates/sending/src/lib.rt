// Next data: the next record of the queue to the active server; and a batch of them.
#![tactic(auto)]

pub mod batch;
pub mod next_data;
mod sets;
