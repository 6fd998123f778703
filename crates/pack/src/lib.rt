// Rows packed, seven bytes to a row, and unpacked [01:Rows and their packing].
//
// No public function has a `requires`: each is total on any numbers, any bytes and any lent output.
#![tactic(auto)]

pub mod packing;
pub mod unpacking;
