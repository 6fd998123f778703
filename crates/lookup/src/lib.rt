// Names looked up among a file's definition rows: the last definition of a name counts [01:Resolving and writing].
//
//     hash     FNV-1a with 32 bits, and its multiply
//     plain    the plain search
//     order    the definitions in the order of their names, and the search among them
//     index    the index in lent numbers, and the search by it, which the crates above call
#![tactic(auto)]

pub mod hash;
pub mod index;
pub mod order;
pub mod plain;
