// Entries, after src/raw.rs: `entry`, `strings`, `preamble`, `body`.
ghost use Rattle.std.specs.Prelude.{◌≡◌, ◌+◌, ◌≤◌, ◌<◌, length};
ghost use Rattle.raw.specs.Grammar.{lower, spells, form_of, preamble, body, lead, rest, entry};
ghost use Rattle.raw.specs.Says.{step_of, Onward, Says, Within, ReadyAt, Ascii};

use crate::answer::Piece;
use crate::{field, token, value};
use reader;
use row::fault::Fault;
use row::form;
use row::form::Kind;
use text::class::Test;
use text::scanner;

// What an entry is, by its type.
#[derive(Clone, Copy)]
pub enum Form {
    Strings,
    Preambles,
    Comments,
    Other,
}

// The small letter of an ASCII capital; any other byte as it is. With the `to_ascii_lowercase` of std in its place, files of names took 1.2 times
// as long and deep braces twice as long: the readers of values were no longer put in line.
fn lower(b: u8) -> u8
    ensures { result ≡ lower b }
{
    if (0x41 <= b) & (b <= 0x5a) {
        return b + 0x20;
    }
    b
}

// Whether the text from one place to another spells a word, in any ASCII case. The `eq_ignore_ascii_case` of a slice costs as much as
// `to_ascii_lowercase` would in `lower`.
fn spells(s: &[u8], at: usize, end: usize, word: &[u8]) -> bool
    requires { (at ≤ end) × (end ≤ length s.now) × Ascii word.now }
    ensures { result ≡ spells word.now s.now at end }
{
    if end - at != word.len() {
        return false;
    }
    for k in 0..word.len() {
        if lower(s[at + k]) != word[k] {
            return false;
        }
    }
    true
}

fn form_of(s: &[u8], at: usize, end: usize) -> Form
    requires { (at ≤ end) × (end ≤ length s.now) }
    ensures { result ≡ form_of s.now at end }
{
    if spells(s, at, end, b"string") {
        return Form::Strings;
    }
    if spells(s, at, end, b"preamble") {
        return Form::Preambles;
    }
    if spells(s, at, end, b"comment") {
        return Form::Comments;
    }
    Form::Other
}

// Eat the body of a preamble entry: a row over the string with its quotes.
fn preamble(
    piece: Piece<'_>,
    at: usize,
    rows: &mut [u32],
    n: usize,
) -> Result<(usize, usize), Fault>
    requires { ReadyAt piece.base (length piece.text.now) at n }
    ensures says { Says piece.entry.base (preamble piece.entry.text.now at) n rows.old result rows.new }
    ensures within { Within (length piece.entry.text.now) 2 at n result }
{
    let s = piece.text;
    let p1 = value::string(s, at)?;
    form::put_row(rows, n, Kind::Preamble, piece.base, at, p1);
    Ok((p1, n + 1))
}

// Eat the body of an entry: a row over its key, and its fields' rows.
fn body(piece: Piece<'_>, at: usize, rows: &mut [u32], n: usize) -> Result<(usize, usize), Fault>
    requires { ReadyAt piece.base (length piece.text.now) at n }
    ensures says { Says piece.entry.base (body piece.entry.text.now at) n rows.old result rows.new }
    ensures within { Within (length piece.entry.text.now) 1 at n result }
{
    let s = piece.text;
    let p1 = token::key(s, at);
    let p2 = scanner::eat_whitespace(s, p1);
    let p3 = token::comma(s, p2)?;
    // A comment may stand after the key's comma: `@article{foo,  % so`.
    let p4 = scanner::eat_whitespace(s, p3);
    let p5 = token::comment(s, p4);
    let p6 = scanner::eat_whitespace(s, p5);
    form::put_row(rows, n, Kind::Key, piece.base, at, p1);
    field::fields(piece, p6, rows, n + 1, Kind::FieldName)
}

// Eat the delimiter that opens, with the white space around it.
fn lead(s: &[u8], at: usize) -> Result<usize, Fault>
    ensures { (result ≡ step_of (lead s.now at)) × Onward (length s.now) 1 at result }
{
    let p1 = scanner::eat_whitespace(s, at);
    let p2 = token::opening(s, p1)?;
    Ok(scanner::eat_whitespace(s, p2))
}

// Eat an entry that begins at start, after its type from a place to its end.
fn rest(
    piece: Piece<'_>,
    start: usize,
    at: usize,
    end: usize,
    rows: &mut [u32],
    n: usize,
    form: Form,
) -> Result<(usize, usize), Fault>
    requires { ReadyAt piece.base (length piece.text.now) end (n + 1) × (start ≤ at) × (at ≤ end) }
    ensures says { Says piece.entry.base (rest form start at end piece.entry.text.now end) n rows.old result rows.new }
    ensures within { Within (length piece.entry.text.now) 1 end (n + 1) result }
{
    let s = piece.text;
    let p1 = lead(s, end)?;
    match form {
        Form::Strings => field::fields(piece, p1, rows, n, Kind::DefinitionName),
        Form::Preambles => preamble(piece, p1, rows, n),
        Form::Comments => Ok((reader::until(s, p1, Test::ClosingBrace), n)),
        Form::Other => {
            form::put_row(rows, n + 1, Kind::EntryType, piece.base, at, end);
            let (p2, n2) = body(piece, p1, rows, n + 2)?;
            form::put_row(rows, n, Kind::Entry, piece.base, start, p2);
            Ok((p2, n2))
        }
    }
}

// Eat an entry.
pub fn entry(
    piece: Piece<'_>,
    at: usize,
    rows: &mut [u32],
    n: usize,
) -> Result<(usize, usize), Fault>
    requires { ReadyAt piece.base (length piece.text.now) at n }
    ensures says { Says piece.entry.base (entry piece.entry.text.now at) n rows.old result rows.new }
    ensures within { Within (length piece.entry.text.now) 1 at n result }
{
    let s = piece.text;
    let p1 = token::at_sign(s, at)?;
    let p2 = token::name(s, p1, 0x7b)?;
    let form = form_of(s, p1, p2);
    let (p3, n3) = rest(piece, at, p1, p2, rows, n, form)?;
    let p4 = scanner::eat_whitespace(s, p3);
    let p5 = token::closing(s, p4)?;
    Ok((p5, n3))
}
