// What a text is made of: UTF-8, classes of characters, and a scanner over them.
//
// The public functions are total on any bytes, any place and any lent buffer. One has a `requires`, which the crates above prove where they call
// it: `scanner::eat_byte` takes a byte of ASCII.
#![tactic(auto)]

pub mod block;
pub mod class;
pub mod scanner;
pub mod utf8;
