// Chunk rows, joined as they are appended.
ghost use Rattle.std.specs.Prelude.{◌+◌, ◌≤◌};
ghost use Rattle.row.specs.Limits.{most_literal};
ghost use Rattle.literal.specs.Rows.{most_rows, Pushes};

use chunk::form;
use chunk::form::Kind;

// The greatest number that a row can hold: it has 32 bits.
pub const MOST_NUMBER: usize = 4_294_967_295;

// Rows are counted as far as this. It is more than any lent numbers have room for: their length has 64 bits, and a row is five numbers.
pub const MOST_ROWS: usize = 4_000_000_000_000_000_000;

// The rows of chunks so far: how many; of the last one its kind's number, or 3 where there is none, and where its text and its span begin. An
// `Option<Kind>` in the number's place was tried: it leaves 0.92 of the speed on `{\i}$x$` over and over, and 0.96 on `\emph{a}`.
#[derive(Clone, Copy)]
pub struct Rows {
    pub n: usize,
    pub last: u32,
    pub from: u32,
    pub start: u32,
}

// One chunk more, whose text goes from one place to another. Where `flatten` would join it with the last chunk, the row of both is written over
// the last one's row: no row is read back.
pub fn push(
    rows: &mut [u32],
    have: Rows,
    kind: Kind,
    from: u32,
    to: u32,
    start: u32,
    end: u32,
) -> Rows
    requires { have.n ≤ most_rows + most_literal }
    ensures pushes { Pushes kind from to start end have rows.old result rows.new }
    ensures n_le_n { (have.n ≤ result.n) × (result.n ≤ have.n + 1) }
{
    let number = u32::from(kind);
    if (0 < have.n) & (have.last == number) & (number != 2) {
        form::write_chunk(rows, have.n - 1, kind, have.from, to, have.start, end);
        return Rows {
            n: have.n,
            last: number,
            from: have.from,
            start: have.start,
        };
    }
    form::write_chunk(rows, have.n, kind, from, to, start, end);
    Rows {
        n: have.n + 1,
        last: number,
        from,
        start,
    }
}
