// Content resolved into chunks, after `ContentParser` of resolve.rs.
//
// A turn of content either writes text (the crate `turn`) or ends a chunk (`making`), which becomes a row of a literal (`rows`). `content` has the
// turns that end a chunk, and how a command's argument begins and ends; `parse` has content and argument, which call each other, and a whole
// literal.
#![tactic(auto)]

pub mod content;
pub mod making;
pub mod parse;
pub mod rows;
