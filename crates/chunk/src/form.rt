// The chunk row: kind, text start and end, span start and end, five numbers to a row in lent numbers [01:Resolving and writing].
ghost use Rattle.std.specs.Prelude.{◌≡◌, ◌+◌, ◌≤◌, length, get_or};
ghost use Rattle.chunk.specs.Chunk.{kind_of, kind_from, chunk_row, put_chunk, Stores};

// What a chunk is. Document 01 gives the numbers.
#[derive(Clone, Copy, PartialEq, Eq)]
pub enum Kind {
    Normal,
    Verbatim,
    Math,
}

impl From<Kind> for u32 {
    ghost from_gives = { λ k n. n ≡ kind_of k };

    fn from(kind: Kind) -> u32 {
        match kind {
            Kind::Normal => 0,
            Kind::Verbatim => 1,
            Kind::Math => 2,
        }
    }
}

// The kind that has this number. The row check passes only 0, 1 and 2, so this is no `TryFrom`: where it is called there is nothing to refuse.
pub fn kind_from(number: u32) -> Kind
    ensures { result ≡ kind_from number }
{
    match number {
        0 => Kind::Normal,
        1 => Kind::Verbatim,
        _ => Kind::Math,
    }
}

// The one place that writes a chunk row: row n of the lent numbers, where it fits whole.
pub fn write_chunk(rows: &mut [u32], n: usize, kind: Kind, from: u32, to: u32, start: u32, end: u32)
    ensures { rows.new ≡ put_chunk rows.old n (chunk_row (kind_of kind) from to start end) }
{
    let number = u32::from(kind);
    if n < rows.len() / 5 {
        let i = n * 5;
        rows[i] = number;
        rows[i + 1] = from;
        rows[i + 2] = to;
        rows[i + 3] = start;
        rows[i + 4] = end;
    }
}

// What a writer looks at in a row: its kind's number, and its text.
#[derive(Clone, Copy)]
pub struct Stored {
    pub kind: u32,
    pub from: usize,
    pub to: usize,
}

// The kind and the text of the row from number i on. Only this and `span_at` read a chunk row.
pub fn row_at(rows: &[u32], i: usize) -> Stored
    requires { i + 5 ≤ length rows.now }
    ensures { Stores rows.now i result.kind result.from result.to }
{
    Stored {
        kind: rows[i],
        from: rows[i + 1] as usize,
        to: rows[i + 2] as usize,
    }
}

// The span of a row.
#[derive(Clone, Copy)]
pub struct Span {
    pub start: usize,
    pub end: usize,
}

// That of the row from number i on.
pub fn span_at(rows: &[u32], i: usize) -> Span
    requires { i + 5 ≤ length rows.now }
    ensures { (result.start ≡ get_or rows.now (i + 3) 0) × (result.end ≡ get_or rows.now (i + 4) 0) }
{
    Span {
        start: rows[i + 3] as usize,
        end: rows[i + 4] as usize,
    }
}
