// Template tables: whether octets are a sound one, the octet order of its record data, and where a template lies in it.
#![tactic(auto)]

pub mod table;
mod within;
