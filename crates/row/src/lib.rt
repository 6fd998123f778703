// Rows, the form in which everything that is read is handed over [01:Rows and their packing]: how a row is written, and which sequences of
// rows are right; and what all calls have in common, refusals and limits.
#![tactic(auto)]

pub mod check;
pub mod fault;
pub mod form;
pub mod limits;
pub mod mask;
