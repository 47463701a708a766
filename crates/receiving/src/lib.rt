// Receive: a message from a server, taken as a transition or as the acknowledgement of records.
#![tactic(auto)]

mod acknowledge;
mod decode;
pub mod receive;
mod release;
