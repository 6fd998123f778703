// The turns of content that write text, after `ContentParser` of resolve.rs.
#![tactic(auto)]

pub mod turn;
