// Document 01's limits [01:From file to field]. Each is said here once for the code, and in specs/Limits.antt once for the contracts.

// The longest file.
pub const MOST_BYTES: usize = 16_777_215;

// The last place that a row can have: the end of the longest file.
pub const LAST_PLACE: u32 = MOST_BYTES as u32;

// The longest literal that is resolved.
pub const MOST_LITERAL: usize = 16_384;

// The least scratch of a call that resolves.
pub const LEAST_SCRATCH: usize = 32_768;

// How many arguments of commands may be open at once.
pub const MOST_ARGUMENTS: usize = 64;

// How many names may be open at once, and how many a field may resolve.
pub const MOST_OPEN: usize = 32;

pub const MOST_NAMES: usize = 4_096;
