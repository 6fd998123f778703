// What resolving comes to, and the check of the file that every call makes first.
ghost use Rattle.std.specs.Prelude.{◌≡◌};
ghost use Rattle.resolve.specs.Resolves.{checked_file};

use row::fault;
use row::fault::{Fault, Reason};
use row::limits::MOST_BYTES;
use text::utf8;

// The rows of chunks and the bytes of text that were written, and the names that were resolved.
#[derive(Clone, Copy)]
pub struct Chunks {
    pub rows: usize,
    pub bytes: usize,
    pub names: usize,
}

// 1 and 2: a file inside 01's limit, and UTF-8.
pub fn check_file(file: &[u8]) -> Result<(), Fault>
    ensures { result ≡ checked_file file.now }
{
    if MOST_BYTES < file.len() {
        return Err(fault::nowhere(Reason::TooLong));
    }
    utf8::validate(file)?;
    Ok(())
}
