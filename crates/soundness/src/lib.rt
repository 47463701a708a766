// Sound settings, states and tables, and set-up, which makes a sound state.
#![tactic(auto)]

pub mod session_table;
pub mod set_up;
pub mod sound;
