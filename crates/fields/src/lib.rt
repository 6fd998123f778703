// The value of a row, after resolve.rs: counted, or written over what is lent.
//
// The call checks what it is lent, resolves, and then writes. Text under construction stands in the lent scratch, which holds zeros afterwards.
#![tactic(auto)]

pub mod field;
