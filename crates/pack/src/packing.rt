// Rows into bytes: checked first, written second.
ghost use Rattle.std.specs.Prelude.{◌≡◌, true, ◌++◌, ◌+◌, ◌*◌, ◌/◌, ◌≤◌, length, take, drop};
ghost use Rattle.row.specs.Row.{row_of};
ghost use Rattle.row.specs.Numbers.{rows_of};
ghost use Rattle.pack.specs.Seven.{pack_row, packing, InSeven};
ghost use Rattle.pack.specs.Pack.{is_packable, Pack};

use row::fault::{Fault, Reason};
use row::limits::LAST_PLACE;
use row::{fault, mask};

// Whether the rows pass the row check, and each span is a span of a file. `is_unpackable` goes by the same masks over bytes, without a test that a
// span is not reversed; a common function would take the chunks' length, the reading of a row and the test of its span.
fn is_packable(rows: &[u32]) -> bool
    ensures { result ≡ is_packable rows.now }
{
    if rows.len() % 4 != 0 {
        return false;
    }
    let mut masks = mask::first();
    let (all, _) = rows.as_chunks::<4>();
    for &[kind, detail, start, end] in all {
        masks = mask::step(masks, kind, detail);
        if (LAST_PLACE < end) | (end < start) {
            return false;
        }
    }
    mask::is_whole(masks)
}

// Writes a row into the seven bytes from p on.
fn put_packed(bytes: &mut [u8], p: usize, kind: u32, detail: u32, start: u32, end: u32)
    requires { (p + 7 ≤ length bytes.old) × InSeven (row_of kind detail start end) }
    ensures { bytes.new ≡ take p bytes.old ++ pack_row (row_of kind detail start end) ++ drop (p + 7) bytes.old }
{
    let from = start.to_be_bytes();
    let size = (end - start).to_be_bytes();
    bytes[p] = (kind * 16 + detail) as u8;
    bytes[p + 1] = from[1];
    bytes[p + 2] = from[2];
    bytes[p + 3] = from[3];
    bytes[p + 4] = size[1];
    bytes[p + 5] = size[2];
    bytes[p + 6] = size[3];
}

// Writes all rows, from the first byte on.
fn put_all(rows: &[u32], bytes: &mut [u8])
    requires { (is_packable rows.now ≡ true) × (length rows.now / 4 * 7 ≤ length bytes.old) }
    ensures { bytes.new ≡ packing (rows_of rows.now) ++ drop (length rows.now / 4 * 7) bytes.old }
{
    let (all, _) = rows.as_chunks::<4>();
    for (k, &[kind, detail, start, end]) in all.iter().enumerate() {
        put_packed(bytes, k * 7, kind, detail, start, end);
    }
}

// Packs rows: the number of bytes, which then stand in the lent bytes, or the refusal, which leaves them as they were.
pub fn pack(rows: &[u32], bytes: &mut [u8]) -> Result<usize, Fault>
    ensures { Pack rows.now bytes.old result bytes.new }
{
    if is_packable(rows) {
        let n = rows.len() / 4;
        // `unpack` asks the like of numbers: one comparison each, which a function for both would not shorten.
        if bytes.len() / 7 < n {
            return Err(fault::nowhere(Reason::NoRoom));
        }
        put_all(rows, bytes);
        return Ok(n * 7);
    }
    Err(fault::nowhere(Reason::BadRows))
}
