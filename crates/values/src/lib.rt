// The elements of a value, after resolve.rs: its literals, and its names, each of which is a definition's value or a month word.
#![tactic(auto)]

pub mod elements;
pub mod months;
pub mod resolver;
