// The check of lent chunk rows and their text [01:Rows and their packing].
ghost use Rattle.std.specs.Prelude.{◌≡◌};
ghost use Rattle.chunk.specs.Chunk.{chunk_row, is_chunk, are_chunks};
ghost use Rattle.chunk.specs.Write.{checked_of};

use crate::form;
use row::fault;
use row::fault::{Fault, Reason};
use text::utf8;

// Whether a row has one of the three kinds, and a range of the text that cuts no character.
fn is_chunk(t: &[u8], kind: u32, from: usize, to: usize) -> bool
    ensures { result ≡ is_chunk t.now (chunk_row kind from to 0 0) }
{
    // The numbers of a lent row are judged here, so there is no `Kind` yet.
    (kind <= 2) & ((from <= to) & (utf8::is_boundary(t, from) & utf8::is_boundary(t, to)))
}

fn are_chunks(t: &[u8], rows: &[u32]) -> bool
    ensures { result ≡ are_chunks t.now rows.now }
{
    if rows.len() % 5 != 0 {
        return false;
    }
    for i in 0..rows.len() / 5 {
        let row = form::row_at(rows, i * 5);
        if !is_chunk(t, row.kind, row.from, row.to) {
            return false;
        }
    }
    true
}

// 2 for a text that is not UTF-8, then 17 for rows that are no chunks of it.
pub fn check(t: &[u8], rows: &[u32]) -> Result<(), Fault>
    ensures { result ≡ checked_of t.now rows.now }
{
    utf8::validate_text(t)?;
    if !are_chunks(t, rows) {
        return Err(fault::nowhere(Reason::BadRows));
    }
    Ok(())
}
