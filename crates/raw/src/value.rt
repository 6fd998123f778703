// Values, after src/raw.rs: `string`, `number`, `braced`, `abbr_element`, `abbr_field`, `single_field`. Loops over bytes: only ASCII decides.
ghost use Rattle.std.specs.Prelude.{◌≡◌, ◌+◌, ◌≤◌, length};
ghost use Rattle.raw.specs.Inner.{Undelimited, literal_of};
ghost use Rattle.raw.specs.Grammar.{quoted, string, string_literal, number, in_braces, braced, abbr_element, abbr_turn, abbr_field};
ghost use Rattle.raw.specs.Says.{step_of, Onward, Says, Within, ReadyAt, Ready};

use crate::answer::{Loop, Piece, Turn};
use crate::{answer, token};
use row::fault::{Fault, Reason};
use row::form::Kind;
use row::{fault, form};
use std::ops::ControlFlow;
use text::class::Test;
use text::{block, scanner};

// The place of the quote that closes a string, from inside it, byte by byte. A backslash takes a turn with the byte behind it, which a `for` over
// the places could not pass by.
fn quoted_end(s: &[u8], at: usize) -> Result<usize, Fault>
    ensures { (result ≡ step_of (quoted s.now at)) × Onward (length s.now) 0 at result }
{
    let mut i = at;
    while i < s.len() {
        match s[i] {
            0x22 => {
                return Ok(i);
            }
            0x5c => {
                i += 1;
                if i < s.len() {
                    i += 1;
                }
            }
            _ => {
                i += 1;
            }
        }
    }
    Err(fault::fault_at(Reason::UnexpectedEof, i))
}

// The place of the quote that closes a string, as `quoted_end` finds it, but quicker: a turn looks at two bytes, since escapes come close together
// where there are any, and then at blocks.
fn quoted(s: &[u8], at: usize) -> Result<usize, Fault>
    ensures { (result ≡ step_of (quoted s.now at)) × Onward (length s.now) 0 at result }
{
    let mut i = at;
    while block::has(s, i, 16) {
        match s[i] {
            0x22 => {
                return Ok(i);
            }
            0x5c => {
                i += 2;
            }
            _ => {
                let j = i + 1;
                match s[j] {
                    0x22 => {
                        return Ok(j);
                    }
                    0x5c => {
                        i = j + 2;
                    }
                    _ => {
                        i = block::past_quotes(s, j + 1);
                    }
                }
            }
        }
    }
    quoted_end(s, i)
}

// Eat a string.
pub fn string(s: &[u8], at: usize) -> Result<usize, Fault>
    ensures { (result ≡ step_of (string s.now at)) × Onward (length s.now) 2 at result }
{
    let p1 = token::quote(s, at)?;
    let p2 = quoted_end(s, p1)?;
    token::quote(s, p2)
}

// Eat a number.
fn number(s: &[u8], at: usize) -> Result<usize, Fault>
    ensures { (result ≡ step_of (number s.now at)) × Onward (length s.now) 0 at result }
{
    let mut dot = false;
    for i in at..s.len() {
        let b = s[i];
        if (0x30 <= b) & (b <= 0x39) {
            continue;
        }
        if b != 0x2e {
            return Ok(i);
        }
        if dot {
            return Err(fault::fault_at(Reason::UnexpectedDecimalPoint, i));
        }
        dot = true;
    }
    Err(fault::fault_at(Reason::UnexpectedEof, at.max(s.len())))
}

// The place of the brace that closes a braced value, from inside it: braces in it nest, and a backslash takes the next character with it. A turn
// goes on by one byte, by two or by blocks, so that no `for` fits.
fn in_braces(s: &[u8], at: usize) -> Result<usize, Fault>
    ensures { (result ≡ step_of (in_braces s.now at)) × Onward (length s.now) 0 at result }
{
    let mut i = at;
    let mut depth: usize = 0;
    while i < s.len() {
        match s[i] {
            0x7b => {
                depth += 1;
                i += 1;
            }
            0x7d => {
                if depth == 0 {
                    return Ok(i);
                }
                depth -= 1;
                i += 1;
            }
            0x5c => {
                if s.len() - i < 2 {
                    let end = i + 1;
                    return Err(fault::fault_at(Reason::UnexpectedEof, end));
                }
                i += 2;
            }
            _ => {
                i = block::past_braces(s, i + 1);
            }
        }
    }
    Err(fault::fault_at(Reason::UnexpectedEof, i))
}

// The literal between two delimiters: row n, at its place in the file, unless the delimiter that closes is refused.
fn literal(
    base: usize,
    from: usize,
    to: usize,
    closed: Result<usize, Fault>,
    rows: &mut [u32],
    n: usize,
) -> Result<(usize, usize), Fault>
    requires { (from ≤ to) × Ready base to to n }
    ensures { Says base (literal_of from to closed) n rows.old result rows.new }
{
    let at = closed?;
    form::put_row(rows, n, Kind::Literal, base, from, to);
    Ok((at, n + 1))
}

// Eat a string whose inside is a literal: row n, at its place in the file.
fn string_literal(
    piece: Piece<'_>,
    at: usize,
    rows: &mut [u32],
    n: usize,
) -> Result<(usize, usize), Fault>
    requires { ReadyAt piece.base (length piece.text.now) at n }
    ensures says { Says piece.entry.base (string_literal piece.entry.text.now at) n rows.old result rows.new }
    ensures within { Within (length piece.entry.text.now) 2 at n result }
{
    let s = piece.text;
    let p1 = token::quote(s, at)?;
    let p2 = quoted(s, p1)?;
    literal(piece.base, p1, p2, token::quote(s, p2), rows, n)
}

// Eat a braced value.
fn braced(piece: Piece<'_>, at: usize, rows: &mut [u32], n: usize) -> Result<(usize, usize), Fault>
    requires { ReadyAt piece.base (length piece.text.now) at n }
    ensures says { Says piece.entry.base (braced piece.entry.text.now at) n rows.old result rows.new }
    ensures within { Within (length piece.entry.text.now) 2 at n result }
{
    let s = piece.text;
    let p1 = token::opening(s, at)?;
    let p2 = in_braces(s, p1)?;
    literal(piece.base, p1, p2, token::closing(s, p2), rows, n)
}

// Eat an element of an abbreviation that begins with neither a brace nor a quote.
fn bare_element(
    piece: Piece<'_>,
    at: usize,
    rows: &mut [u32],
    n: usize,
) -> Result<(usize, usize), Fault>
    requires { ReadyAt piece.base (length piece.text.now) at n × Undelimited piece.text.now at }
    ensures says { Says piece.entry.base (abbr_element piece.entry.text.now at) n rows.old result rows.new }
    ensures within { Within (length piece.entry.text.now) 1 at n result }
{
    let s = piece.text;
    let digit = scanner::eat_if(s, at, Test::Digit);
    if digit != at {
        let p1 = number(s, at)?;
        form::put_row(rows, n, Kind::Literal, piece.base, at, p1);
        return Ok((p1, n + 1));
    }
    let start = scanner::eat_if(s, at, Test::IdStart);
    if start != at {
        let p2 = token::ident(s, at)?;
        form::put_row(rows, n, Kind::Name, piece.base, at, p2);
        return Ok((p2, n + 1));
    }
    Err(fault::fault_at(Reason::UnexpectedEof, at))
}

// Eat an element of an abbreviation: most are in braces or quotes.
fn abbr_element(
    piece: Piece<'_>,
    at: usize,
    rows: &mut [u32],
    n: usize,
) -> Result<(usize, usize), Fault>
    requires { ReadyAt piece.base (length piece.text.now) at n }
    ensures says { Says piece.entry.base (abbr_element piece.entry.text.now at) n rows.old result rows.new }
    ensures within { Within (length piece.entry.text.now) 1 at n result }
{
    let s = piece.text;
    if at < s.len() {
        let b = s[at];
        if b == 0x7b {
            return braced(piece, at, rows, n);
        }
        if b == 0x22 {
            return string_literal(piece, at, rows, n);
        }
    }
    bare_element(piece, at, rows, n)
}

// The elements of an abbreviation.
#[derive(Drop)]
struct ElementTurns;

impl Loop for ElementTurns {
    ghost reader = { λ x. abbr_turn 0 };

    ghost least = { 1 };

    // Eat an element, and a number sign after it if another follows. Mostly a comma or a number sign stands right behind it.
    fn turn(&self, piece: Piece<'_>, at: usize, rows: &mut [u32], n: usize) -> Result<Turn, Fault> {
        let s = piece.text;
        let (p1, n1) = abbr_element(piece, at, rows, n)?;
        if p1 < s.len() {
            let b = s[p1];
            if b == 0x2c {
                return Ok(ControlFlow::Break((p1, n1)));
            }
            if b == 0x23 {
                let next = scanner::eat_whitespace(s, p1 + 1);
                return Ok(ControlFlow::Continue((next, n1)));
            }
        }
        let p2 = scanner::eat_whitespace(s, p1);
        let p3 = scanner::eat_byte(s, p2, 0x23);
        if p3 == p2 {
            return Ok(ControlFlow::Break((p2, n1)));
        }
        let p4 = scanner::eat_whitespace(s, p3);
        Ok(ControlFlow::Continue((p4, n1)))
    }
}

// Eat an abbreviation field: a row over its elements and the white space after them.
pub fn abbr_field(
    piece: Piece<'_>,
    at: usize,
    rows: &mut [u32],
    n: usize,
) -> Result<(usize, usize), Fault>
    requires { ReadyAt piece.base (length piece.text.now) at (n + 1) }
    ensures says { Says piece.entry.base (abbr_field piece.entry.text.now at) n rows.old result rows.new }
    ensures within { Within (length piece.entry.text.now) 1 at (n + 1) result }
{
    let (q, k) = answer::turns(&ElementTurns, piece, at, rows, n + 1)?;
    form::put_row(rows, n, Kind::Value, piece.base, at, q);
    Ok((q, k))
}
