// The types of the fields of a record, one row each: number, width, whether it is a number, whether that is signed, and whether it has the
// octet order of the table.
#![tactic(auto)]

pub mod field_type;
