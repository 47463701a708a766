// What the ten messages of IPDR/SP 2.2 say. The crate has types alone; `ipdr_reading` reads messages and `ipdr_writing` writes them.
#![tactic(auto)]

pub mod message;
