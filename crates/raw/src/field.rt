// Fields, after src/raw.rs: `field`, `fields`.
ghost use Rattle.std.specs.Prelude.{List, ℕ, length};
ghost use Rattle.raw.specs.Grammar.{field, field_end, fields_turn, fields};
ghost use Rattle.raw.specs.Says.{Says, Within, SaysTurn, WithinTurn, ReadyAt};

use crate::answer::{Loop, Piece, Turn};
use crate::{answer, token, value};
use row::fault::{Fault, Reason};
use row::form::Kind;
use row::{fault, form};
use std::ops::ControlFlow;
use text::scanner;

// Eat a field: a row over its name, of the kind given, and its value's rows.
fn field(
    piece: Piece<'_>,
    at: usize,
    rows: &mut [u32],
    n: usize,
    kind: Kind,
) -> Result<(usize, usize), Fault>
    requires { ReadyAt piece.base (length piece.text.now) at n }
    ensures says { Says piece.entry.base (field kind piece.entry.text.now at) n rows.old result rows.new }
    ensures within { Within (length piece.entry.text.now) 3 at n result }
{
    let s = piece.text;
    let p1 = token::name(s, at, 0x3d)?;
    let p2 = scanner::eat_whitespace(s, p1);
    let p3 = token::equals(s, p2)?;
    let p4 = scanner::eat_whitespace(s, p3);
    form::put_row(rows, n, kind, piece.base, at, p1);
    let (p5, n5) = value::abbr_field(piece, p4, rows, n + 1)?;
    // Mostly a comma stands right behind the value.
    if p5 < s.len() {
        if s[p5] == 0x2c {
            return Ok((p5, n5));
        }
    }
    // A comment may stand before the closing brace: `year={2025}  % so`.
    let p6 = scanner::eat_whitespace(s, p5);
    let p7 = token::comment(s, p6);
    Ok((p7, n5))
}

// What follows a field: a comma, and with it a comment, or the brace that closes the entry.
fn field_end(s: &[u8], at: usize, n: usize) -> Result<Turn, Fault>
    ensures says { (base : ℕ) (b : List ℕ) → SaysTurn base (field_end s.now at) n b result b }
    ensures within { WithinTurn (length s.now) 1 0 at n result }
{
    if at < s.len() {
        if s[at] == 0x2c {
            let p2 = scanner::eat_whitespace(s, at + 1);
            let p3 = token::comment(s, p2);
            return Ok(ControlFlow::Continue((p3, n)));
        }
    }
    let p1 = scanner::eat_whitespace(s, at);
    if p1 < s.len() {
        let b = s[p1];
        if b == 0x2c {
            let p2 = scanner::eat_whitespace(s, p1 + 1);
            let p3 = token::comment(s, p2);
            return Ok(ControlFlow::Continue((p3, n)));
        }
        if b == 0x7d {
            return Ok(ControlFlow::Break((p1, n)));
        }
    }
    Err(fault::fault_at(Reason::ExpectedComma, p1))
}

// The fields of an entry: rows of this kind are over their names.
#[derive(Drop)]
struct FieldTurns {
    kind: Kind,
}

impl Loop for FieldTurns {
    ghost reader = { λ x. fields_turn x.kind 0 };

    ghost least = { 0 };

    // Eat a field, if another one stands before the closing brace.
    fn turn(&self, piece: Piece<'_>, at: usize, rows: &mut [u32], n: usize) -> Result<Turn, Fault> {
        let s = piece.text;
        if s.len() <= at {
            return Err(fault::fault_at(Reason::UnexpectedEof, at));
        }
        let p1 = scanner::eat_whitespace(s, at);
        if p1 < s.len() {
            if s[p1] == 0x7d {
                return Ok(ControlFlow::Break((p1, n)));
            }
        }
        let (p2, n2) = field(piece, p1, rows, n, self.kind)?;
        field_end(s, p2, n2)
    }
}

// Eat fields, to the brace that closes the entry, which is not eaten.
pub fn fields(
    piece: Piece<'_>,
    at: usize,
    rows: &mut [u32],
    n: usize,
    kind: Kind,
) -> Result<(usize, usize), Fault>
    requires { ReadyAt piece.base (length piece.text.now) at n }
    ensures says { Says piece.entry.base (fields kind piece.entry.text.now at) n rows.old result rows.new }
    ensures within { Within (length piece.entry.text.now) 0 at n result }
{
    answer::turns(&FieldTurns { kind }, piece, at, rows, n)
}
