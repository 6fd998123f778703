// Commands of content, after `execute_command` of resolve.rs, and the text under construction that they write to.
//
// The functions here require that places lie inside their texts and that there is room: their callers, which read content, know both.
#![tactic(auto)]

pub mod execute;
pub mod meaning;
pub mod names;
pub mod settle;
pub mod stack;
pub mod tables;
