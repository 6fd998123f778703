// Salvage: a file is cut into pieces, each is read alone, and one that is refused costs no other.
#![tactic(auto)]

pub mod file;
mod piece;
