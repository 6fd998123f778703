// Strict reading of a .bib file, after src/raw.rs: rows out, or the refusal.
//
// A reader that puts no rows answers the place after what it read; one that puts rows, that place and the number of the next row. Either refuses
// with a `Fault`.
#![tactic(auto)]

pub mod answer;
pub mod entry;
pub mod field;
pub mod file;
pub mod token;
pub mod value;
