// The file, after src/raw.rs: `parse`; `parse_bytes`, which checks the UTF-8 first; and `read`, which counts and then writes.
ghost use Rattle.std.specs.Prelude.{◌≡◌, ◌≤◌, length};
ghost use Rattle.row.specs.Limits.{most_bytes};
ghost use Rattle.raw.specs.Grammar.{file_turn, file};
ghost use Rattle.raw.specs.Says.{Says, Within, Ready};
ghost use Rattle.raw.specs.Read.{culprit, strict, Read};

use crate::answer::{Loop, Piece, Turn};
use crate::{answer, entry, token};
use reader;
use row::fault::{Fault, Reason};
use row::limits::MOST_BYTES;
use row::{fault, form};
use std::ops::ControlFlow;
use text::{scanner, utf8};

// The items of a file.
#[derive(Drop)]
struct FileTurns;

impl Loop for FileTurns {
    ghost reader = { λ x. file_turn 0 };

    ghost least = { 0 };

    // Eat an entry, a comment or any other character, after white space.
    fn turn(&self, piece: Piece<'_>, at: usize, rows: &mut [u32], n: usize) -> Result<Turn, Fault> {
        let s = piece.text;
        let p1 = scanner::eat_gap(s, at);
        if s.len() <= p1 {
            return Ok(ControlFlow::Break((p1, n)));
        }
        let b = s[p1];
        if b == 0x40 {
            let (p2, n2) = entry::entry(piece, p1, rows, n)?;
            return Ok(ControlFlow::Continue((p2, n2)));
        }
        if b == 0x25 {
            return Ok(ControlFlow::Continue((token::comment(s, p1), n)));
        }
        Ok(ControlFlow::Continue((reader::after(s, p1), n)))
    }
}

// Reads a text that stands base bytes into a file: its rows from row n on. A refusal is where the reader stood; who hands it out widens it.
pub fn parse(s: &[u8], base: usize, rows: &mut [u32], n: usize) -> Result<(usize, usize), Fault>
    requires { Ready base (length s.now) 0 n }
    ensures says { Says base (file s.now 0) n rows.old result rows.new }
    ensures within { Within (length s.now) 0 0 n result }
{
    answer::turns(&FileTurns, Piece { text: s, base }, 0, rows, n)
}

// A refusal of a text, over the whole character where the reader stood; at the end of the text its place stays empty.
pub fn culprit(s: &[u8], fault: Fault) -> Fault
    ensures { result ≡ culprit s.now fault }
{
    let start = fault.start;
    let reason = fault.reason;
    let end = reader::after(s, start);
    Fault { reason, start, end }
}

// Reads a file of 01's length that may not be UTF-8. Where it is, its rows are put from the first on.
fn parse_bytes(s: &[u8], rows: &mut [u32]) -> Result<(usize, usize), Fault>
    requires { length s.now ≤ most_bytes }
    ensures says { Says 0 (strict s.now) 0 rows.old result rows.new }
    ensures within { Within (length s.now) 0 0 0 result }
{
    utf8::validate_short(s)?;
    parse(s, 0, rows, 0).map_err(|f| culprit(s, f))
}

// Reads a file of 01's length over the room `few` first, past whose end rows are only counted. If all rows are there they are copied from there;
// else the file is read again.
fn read_over(s: &[u8], few: &mut [u32], rows: &mut [u32]) -> Result<usize, Fault>
    requires { length s.now ≤ most_bytes }
    ensures { Read s.now rows.old result rows.new }
{
    let (_, n) = parse_bytes(s, few)?;
    if rows.len() / 4 < n {
        return Err(fault::nowhere(Reason::NoRoom));
    }
    if n <= few.len() / 4 {
        form::copy_numbers(few, n * 4, rows);
        return Ok(n);
    }
    let _ = parse(s, 0, rows, 0);
    Ok(n)
}

// Reads a file strictly: the number of its rows, which then stand in the lent numbers, or the refusal, which leaves them as they were. A file of a
// few pages has a room of its own, so that it is read once; it would not pay for a file of a few lines, and a long one has more rows.
pub fn read(s: &[u8], rows: &mut [u32]) -> Result<usize, Fault>
    ensures { Read s.now rows.old result rows.new }
{
    if MOST_BYTES < s.len() {
        return Err(fault::nowhere(Reason::TooLong));
    }
    if (256 < s.len()) & (s.len() < 65_536) {
        let mut few = [0u32; 8_000];
        return read_over(s, &mut few, rows);
    }
    let mut none = [0u32; 0];
    read_over(s, &mut none, rows)
}
