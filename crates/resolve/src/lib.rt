// Resolving, after resolve.rs: what every call checks and answers, the chunks of a value so far, and the call for one literal.
//
// Each call checks what it is lent, counts, and then writes. Text under construction stands in the lent scratch, which holds zeros afterwards.
#![tactic(auto)]

pub mod answer;
pub mod lent;
pub mod one_literal;
pub mod progress;
