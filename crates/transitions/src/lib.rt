// Offer templates and line down, and in `transition` what moves a server from one phase to another: these two, and the messages that
// receive hands on.
#![tactic(auto)]

pub mod line_down;
pub mod offer_templates;
pub mod transition;
