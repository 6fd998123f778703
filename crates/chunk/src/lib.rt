// Chunks, after chunk.rs: the parts of a field's value, in rows of five numbers over a text, and what they are written as.
//
// The public calls, `format::format_verbatim`, `biblatex::to_biblatex_string` and `sentence::format_sentence`, have no `requires`: each is total
// on any text, any numbers and any lent output. What crates above use besides are the row form, the last character of a text, `is_escapable`,
// and `put::copy`.
#![tactic(auto)]

pub mod biblatex;
pub mod check;
pub mod ending;
pub mod form;
pub mod format;
pub mod put;
pub mod sentence;
