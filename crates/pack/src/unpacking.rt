// Bytes into rows: checked first, written second.
ghost use Rattle.std.specs.Prelude.{◌≡◌, [], ◌∷◌, ◌++◌, ◌*◌, ◌/◌, ◌≤◌, length, drop};
ghost use Rattle.row.specs.Limits.{most_bytes};
ghost use Rattle.row.specs.Row.{flat};
ghost use Rattle.pack.specs.Digits.{of_bytes};
ghost use Rattle.pack.specs.Seven.{unpacking, unpack_at, numbers_in};
ghost use Rattle.pack.specs.Unpack.{is_unpackable, Unpack};

use row::fault::{Fault, Reason};
use row::limits::LAST_PLACE;
use row::{fault, form, mask};

// The number of three bytes, most significant first.
fn three(a: u8, b: u8, c: u8) -> u32
    ensures { (result ≡ of_bytes (a ∷ b ∷ c ∷ [])) × (result ≤ most_bytes) }
{
    u32::from_be_bytes([0, a, b, c])
}

// The row of seven bytes, as its kind, detail, start and end.
fn unpacked(seven: [u8; 7]) -> [u32; 4]
    ensures { result ≡ numbers_in (unpack_at seven 0) }
{
    let [head, a, b, c, d, e, f] = seven;
    let head = u32::from(head);
    let start = three(a, b, c);
    [head / 16, head % 16, start, start + three(d, e, f)]
}

// Whether the bytes are whole rows that pass the row check, with ends inside a file.
fn is_unpackable(bytes: &[u8]) -> bool
    ensures { result ≡ is_unpackable bytes.now }
{
    if bytes.len() % 7 != 0 {
        return false;
    }
    let mut masks = mask::first();
    let (all, _) = bytes.as_chunks::<7>();
    for seven in all {
        let [kind, detail, _, end] = unpacked(*seven);
        masks = mask::step(masks, kind, detail);
        if LAST_PLACE < end {
            return false;
        }
    }
    mask::is_whole(masks)
}

// Writes a row for every seven bytes, from the first number on.
fn put_all(bytes: &[u8], rows: &mut [u32])
    requires { length bytes.now / 7 * 4 ≤ length rows.old }
    ensures { rows.new ≡ flat (unpacking bytes.now) ++ drop (length bytes.now / 7 * 4) rows.old }
{
    let (all, _) = bytes.as_chunks::<7>();
    for (n, seven) in all.iter().enumerate() {
        let [kind, detail, start, end] = unpacked(*seven);
        form::write_numbers(rows, n, kind, detail, start, end);
    }
}

// Unpacks rows: their number, which then stand in the lent numbers, or the refusal, which leaves them as they were.
pub fn unpack(bytes: &[u8], rows: &mut [u32]) -> Result<usize, Fault>
    ensures { Unpack bytes.now rows.old result rows.new }
{
    if is_unpackable(bytes) {
        let n = bytes.len() / 7;
        if rows.len() / 4 < n {
            return Err(fault::nowhere(Reason::NoRoom));
        }
        put_all(bytes, rows);
        return Ok(n);
    }
    Err(fault::nowhere(Reason::BadRows))
}
