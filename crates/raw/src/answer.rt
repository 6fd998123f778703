// A loop of readers, and what one turn of it answers.
ghost use Rattle.std.specs.Prelude.{ℕ, ◌+◌, ◌≤◌, length};
ghost use Rattle.row.specs.Limits.{most_bytes};
ghost use Rattle.raw.specs.Reader.{Reader, many};
ghost use Rattle.raw.specs.Says.{Says, Within, SaysTurn, WithinTurn, ReadyAt};

use row::fault::Fault;
use std::ops::ControlFlow;

// A text that stands in a file, behind so many bytes of it, inside 01's limit.
#[derive(Clone, Copy)]
pub struct Piece<'a> {
    pub text: &'a [u8],
    pub base: usize,
    ghost inside: { base + length text.now ≤ most_bytes },
}

// The place after what the turn read, and the number of the next row: the loop goes on from there, or is done there.
pub type Turn = ControlFlow<(usize, usize), (usize, usize)>;

// A loop, by what a turn of it reads, and by how many bytes the last turn eats at least. Each before it eats one or more.
pub trait Loop {
    ghost reader: { Self → Reader };

    ghost least: { ℕ };

    fn turn(&self, piece: Piece<'_>, at: usize, rows: &mut [u32], n: usize) -> Result<Turn, Fault>
        requires { ReadyAt piece.base (length piece.text.now) at n }
        ensures says { SaysTurn piece.entry.base (reader self.now piece.entry.text.now at) n rows.old result rows.new }
        ensures within { WithinTurn (length piece.entry.text.now) 1 least at n result };
}

// Takes turns until one is done. How far a turn goes the readers in it say, so that no range counts the turns.
pub fn turns<L: Loop>(
    of: &L,
    piece: Piece<'_>,
    at: usize,
    rows: &mut [u32],
    n: usize,
) -> Result<(usize, usize), Fault>
    requires { ReadyAt piece.base (length piece.text.now) at n }
    ensures says { Says piece.entry.base (many (λ a. L.reader of.now) 0 piece.entry.text.now at) n rows.old result rows.new }
    ensures within { Within (length piece.entry.text.now) L.least at n result }
{
    let mut p = at;
    let mut m = n;
    loop {
        match of.turn(piece, p, rows, m)? {
            ControlFlow::Continue((q, k)) => {
                p = q;
                m = k;
            }
            ControlFlow::Break(done) => {
                return Ok(done);
            }
        }
    }
}
