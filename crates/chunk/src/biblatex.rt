// `to_biblatex_string`, after chunk.rs, and `is_escapable`, after resolve.rs.
ghost use Rattle.std.specs.Prelude.{◌≡◌, true, [], ◌∷◌, ◌+◌, ◌*◌, ◌≤◌, ◌<◌, length};
ghost use Rattle.text.specs.Scan.{part};
ghost use Rattle.chunk.specs.Chunk.{are_chunks, chunks_of};
ghost use Rattle.chunk.specs.Format.{is_escapable, escaped as escaped_of, opening, extra_after, body_of, closing, to_biblatex_string};
ghost use Rattle.chunk.specs.Put.{last_place, most_room, Puts, Fills};
ghost use Rattle.chunk.specs.Write.{ToBiblatexString};

use crate::form::Kind;
use crate::{check, form, put};
use row::fault;
use row::fault::{Fault, Reason};

// Whether a backslash goes before the character: in a field that is verbatim or not, in reading or in writing.
pub fn is_escapable(c: u32, verb: bool, read: bool) -> bool
    ensures { result ≡ is_escapable c verb read }
{
    (c == 0x7b)
        | (c == 0x7d)
        | (c == 0x5c)
        | (((c == 0x7e)
            | (c == 0x5e)
            | (c == 0x23)
            | (c == 0x26)
            | (c == 0x25)
            | (c == 0x24)
            | (c == 0x5f))
            & !verb)
        | ((c == 0x3a) & read)
}

// Puts one byte, with a backslash before it where it needs one.
fn escape(b: u8, verb: bool, out: &mut [u8], at: usize) -> usize
    requires { at + 2 ≤ last_place }
    ensures puts { Puts out.old at (escaped_of verb (b ∷ [])) result out.new }
    ensures upper_bound { result ≤ at + 2 }
{
    if is_escapable(b as u32, verb, false) {
        let next = put::put(out, at, 0x5c);
        return put::put(out, next, b);
    }
    put::put(out, at, b)
}

// Puts a text, with a backslash before each character that needs one.
fn escaped(t: &[u8], from: usize, to: usize, verb: bool, out: &mut [u8], at: usize) -> usize
    requires { (from ≤ to) × (to ≤ length t.now) × (at + 2 * to ≤ last_place) }
    ensures puts { Puts out.old at (escaped_of verb (part t.now from to)) result out.new }
    ensures upper_bound { result ≤ at + 2 * to }
{
    let mut j = at;
    for b in &t[from..to] {
        j = escape(*b, verb, out, j);
    }
    j
}

// What stands before a chunk: a brace, where the extra one opens or closes, or Math's dollar.
fn put_opening(extra: bool, kind: Kind, out: &mut [u8], at: usize) -> usize
    requires { at < last_place }
    ensures puts { Puts out.old at (opening extra kind) result out.new }
    ensures upper_bound { result ≤ at + 1 }
{
    match kind {
        Kind::Normal => {
            if extra {
                return put::put(out, at, 0x7d);
            }
            at
        }
        Kind::Verbatim => {
            if extra {
                return at;
            }
            put::put(out, at, 0x7b)
        }
        Kind::Math => put::put(out, at, 0x24),
    }
}

// Whether the extra brace is open after a chunk.
fn extra_after(extra: bool, kind: Kind) -> bool
    ensures { result ≡ extra_after extra kind }
{
    match kind {
        Kind::Normal => false,
        Kind::Verbatim => true,
        Kind::Math => extra,
    }
}

// The chunk itself: Math as it is, with its second dollar, and anything else escaped.
fn put_body(
    verb: bool,
    kind: Kind,
    t: &[u8],
    from: usize,
    to: usize,
    out: &mut [u8],
    at: usize,
) -> usize
    requires { (from ≤ to) × (to ≤ length t.now) × (at + 2 * to < last_place) }
    ensures puts { Puts out.old at (body_of verb kind (part t.now from to)) result out.new }
    ensures upper_bound { result ≤ at + 2 * to + 1 }
{
    match kind {
        Kind::Normal => escaped(t, from, to, verb, out, at),
        Kind::Verbatim => escaped(t, from, to, verb, out, at),
        Kind::Math => {
            let last = put::copy(t, from, to, out, at);
            put::put(out, last, 0x24)
        }
    }
}

// The closing brace, and the extra one where it is open.
fn put_closing(extra: bool, out: &mut [u8], at: usize) -> usize
    requires { at + 2 ≤ last_place }
    ensures puts { Puts out.old at (closing extra) result out.new }
    ensures upper_bound { result ≤ at + 2 }
{
    let next = put::put(out, at, 0x7d);
    if extra {
        return put::put(out, next, 0x7d);
    }
    next
}

// All chunks, as far as there is room: over no bytes, this counts.
fn write_all(t: &[u8], rows: &[u32], verb: bool, room: usize, out: &mut [u8]) -> usize
    requires { (are_chunks t.now rows.now ≡ true) × (room ≤ most_room) }
    ensures { Fills (to_biblatex_string verb (chunks_of t.now rows.now)) room out.old result out.new }
{
    let mut extra = false;
    let mut at = put::put(out, 0, 0x7b);
    for i in 0..rows.len() / 5 {
        let row = form::row_at(rows, i * 5);
        let kind = form::kind_from(row.kind);
        let next = put_opening(extra, kind, out, at);
        at = put_body(verb, kind, t, row.from, row.to, out, next);
        if room < at {
            return at;
        }
        extra = extra_after(extra, kind);
    }
    put_closing(extra, out, at)
}

// Serializes chunks into a BibLaTeX string, for a field that is verbatim or not: the number of bytes, which then stand in the lent bytes, or the
// refusal, which leaves them as they were.
pub fn to_biblatex_string(
    t: &[u8],
    rows: &[u32],
    verb: bool,
    out: &mut [u8],
) -> Result<usize, Fault>
    ensures { ToBiblatexString verb t.now rows.now out.old result out.new }
{
    check::check(t, rows)?;
    let room = out.len();
    let mut none = [0u8; 0];
    let end = write_all(t, rows, verb, room, &mut none);
    if room < end {
        return Err(fault::nowhere(Reason::NoRoom));
    }
    Ok(write_all(t, rows, verb, room, out))
}
