// A whole file resolved in one call: every value, with an index of the names.
#![tactic(auto)]

pub mod bound;
pub mod file;
