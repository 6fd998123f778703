// The row form: kind, detail, start, end, four numbers to a row in lent numbers.
ghost use Rattle.std.specs.Prelude.{◌≡◌, ◌++◌, ◌+◌, ◌≤◌, length, take, drop};
ghost use Rattle.row.specs.Limits.{most_bytes};
ghost use Rattle.row.specs.Row.{kind_of, row_of, row_with, row, put_row};

// What a row is of. Document 01 gives the numbers.
#[derive(Clone, Copy)]
pub enum Kind {
    Preamble,
    Entry,
    EntryType,
    Key,
    FieldName,
    Value,
    Literal,
    Name,
    DefinitionName,
    Damage,
    Cause,
}

// The numbers of the kinds that rows are searched for. What is searched are lent numbers, which a `Kind` need not be.
pub const VALUE: u32 = 5;

pub const LITERAL: u32 = 6;

pub const NAME: u32 = 7;

pub const DEFINITION_NAME: u32 = 8;

impl From<Kind> for u32 {
    ghost from_gives = { λ k n. n ≡ kind_of k };

    fn from(kind: Kind) -> u32 {
        kind as u32
    }
}

// The one place that writes a row: row n of the lent numbers, where it fits whole.
pub fn write_numbers(rows: &mut [u32], n: usize, kind: u32, detail: u32, start: u32, end: u32)
    ensures { rows.new ≡ put_row rows.old n (row_of kind detail start end) }
{
    if n < rows.len() / 4 {
        let i = n * 4;
        rows[i] = kind;
        rows[i + 1] = detail;
        rows[i + 2] = start;
        rows[i + 3] = end;
    }
}

// A row of a kind, from a reader's places.
pub fn write_row(rows: &mut [u32], n: usize, kind: Kind, detail: u32, start: usize, end: usize)
    requires { (start ≤ most_bytes) × (end ≤ most_bytes) }
    ensures { rows.new ≡ put_row rows.old n (row_with kind detail start end) }
{
    write_numbers(rows, n, u32::from(kind), detail, start as u32, end as u32)
}

// A row with detail 0, over a part of a text that stands base bytes into a file.
pub fn put_row(rows: &mut [u32], n: usize, kind: Kind, base: usize, start: usize, end: usize)
    requires { (base + start ≤ most_bytes) × (base + end ≤ most_bytes) }
    ensures { rows.new ≡ put_row rows.old n (row kind (base + start) (base + end)) }
{
    write_row(rows, n, kind, 0, base + start, base + end)
}

// Copies the first n numbers.
pub fn copy_numbers(from: &[u32], n: usize, out: &mut [u32])
    requires { (n ≤ length from.now) × (n ≤ length out.old) }
    ensures { out.new ≡ take n from.now ++ drop n out.old }
{
    // Not the library's `copy_from_slice`, for which an archive for C would need `memmove` from outside.
    for k in 0..n {
        out[k] = from[k];
    }
}
