// `format_sentence`, after chunk.rs.
ghost use Rattle.std.specs.Prelude.{◌≡◌, true, false, map, ◌+◌, ◌*◌, ◌≤◌, ◌<◌, length};
ghost use Rattle.text.specs.Scan.{part};
ghost use Rattle.text.specs.Every.{every};
ghost use Rattle.text.specs.Utf8.{is_scalar, octets, utf8_of};
ghost use Rattle.casing.specs.Mapping.{image_of, numbers};
ghost use Rattle.casing.specs.Lowers.{lowers};
ghost use Rattle.casing.specs.Casing.{cased, ascii_cased};
ghost use Rattle.chunk.specs.Chunk.{are_chunks, chunks_of};
ghost use Rattle.chunk.specs.Inner.{QuietChar, QuietRun, Lowers, heads, still_first};
ghost use Rattle.chunk.specs.Put.{last_place, most_room, Puts, Fills};
ghost use Rattle.chunk.specs.Sentence.{chars, unbroken, sentence_chars, sentence_one, format_sentence};
ghost use Rattle.chunk.specs.Write.{FormatSentence};

use crate::form::Kind;
use crate::format::Formatted;
use crate::{check, ending, form, format, put};
use casing;
use casing::Image;
use reader;
use row::fault;
use row::fault::{Fault, Reason};
use text::{block, class, utf8};

// A letter of ASCII raised or lowered, and any other byte as it is. Which of them is known only as the text is read (`Said.first`), so `up` is no
// const parameter.
fn cased_byte(up: bool, b: u8) -> u8
    ensures { result ≡ ascii_cased up b }
{
    if up {
        b.to_ascii_uppercase()
    } else {
        b.to_ascii_lowercase()
    }
}

// The place after the character at a place, if it is no line end and lowering changes it by ASCII's rule alone; else the place itself.
fn past_quiet(t: &[u8], i: usize, to: usize) -> usize
    requires { (i < to) × (to ≤ length t.now) }
    ensures { (i < result → QuietChar t.now i result) × (i ≤ result) × (result ≤ to) }
{
    let b = t[i];
    if b < 0x80 {
        // With `ending::is_line_end` a title with some letters beyond ASCII is formatted at 0.91 to 0.92 of the speed.
        return if (b == 0x0a) | (b == 0x0d) { i } else { i + 1 };
    }
    match reader::seen(&t[..to], i) {
        None => i,
        Some((code, next)) => { if casing::is_settled(code) { next } else { i } }
    }
}

// A place before which there are none but such characters.
fn run_end(t: &[u8], from: usize, to: usize) -> usize
    requires { (from ≤ to) × (to ≤ length t.now) }
    ensures { QuietRun t.now from result × (from ≤ result) × (result ≤ to) }
{
    let mut i = block::past_narrow(&t[..to], from);
    // No `for`: a turn goes on by a character, which has up to four bytes.
    while i < to {
        let next = past_quiet(t, i, to);
        if next <= i {
            return i;
        }
        i = next;
    }
    i
}

// `put::copy`, with the letters of ASCII lowered. They are not one function: that one moves blocks, which no function of a byte goes
// through. With `put::copy` and `make_ascii_lowercase` behind it, titles in ASCII are formatted at 0.93 to 0.97 of the speed.
fn put_lowered(t: &[u8], from: usize, to: usize, out: &mut [u8], at: usize) -> usize
    requires { (from ≤ to) × (to ≤ length t.now) × (at + to ≤ last_place + from) }
    ensures puts { Puts out.old at (map (ascii_cased false) (part t.now from to)) result out.new }
    ensures from_value { result + from ≡ at + to }
{
    let n = to - from;
    if out.len() <= at {
        return at + n;
    }
    for k in 0..n.min(out.len() - at) {
        out[at + k] = cased_byte(false, t[from + k]);
    }
    at + n
}

// One character.
fn put_char(out: &mut [u8], at: usize, c: u32) -> usize
    requires { (is_scalar c ≡ true) × (at + 4 ≤ last_place) }
    ensures puts { Puts out.old at (octets c) result out.new }
    ensures upper_bound { result ≤ at + 4 }
{
    // Room for any character, since there is no heap.
    let mut b = [0u8; 4];
    match utf8::encode(c, &mut b) {
        Ok(n) => put::copy(&b, 0, n, out, at),
        Err(_) => at,
    }
}

// The characters of an image.
fn put_image(image: Image, out: &mut [u8], at: usize) -> usize
    requires { (every is_scalar (image_of image.one image.two image.three) ≡ true) × (at + 12 ≤ last_place) }
    ensures puts { Puts out.old at (utf8_of (image_of image.one image.two image.three)) result out.new }
    ensures upper_bound { result ≤ at + 12 }
{
    let one = put_char(out, at, image.one);
    if image.two == 0 {
        return one;
    }
    let two = put_char(out, one, image.two);
    if image.three == 0 {
        return two;
    }
    put_char(out, two, image.three)
}

// A character raised or lowered. The table is looked at for a character beyond ASCII that is lowered.
fn put_cased(table: &[u32], up: bool, c: u32, out: &mut [u8], at: usize) -> usize
    requires { (is_scalar c ≡ true) × (at + 12 ≤ last_place) × (0x80 ≤ c → table.now ≡ numbers lowers) }
    ensures puts { Puts out.old at (utf8_of (cased up c)) result out.new }
    ensures upper_bound { result ≤ at + 12 }
{
    if c < 0x80 {
        return put::put(out, at, cased_byte(up, c as u8));
    }
    if up {
        return put_image(casing::to_uppercase(c), out, at);
    }
    put_image(casing::lowered(table, c), out, at)
}

// A blank for a line end.
fn unbroken(c: u32) -> u32
    ensures { result ≡ unbroken c }
{
    if ending::is_line_end(c) { 0x20 } else { c }
}

// Where a Normal text has come to: the place after what was put, and the Rust's `first` and `prev_was_whitespace`. The definition
// `sentence_chars` has the same two, so they are no enum here.
#[derive(Clone, Copy)]
pub struct Said {
    pub at: usize,
    pub first: bool,
    pub white: bool,
}

// The character that begins at a place, if one does: a tail belongs to the character before it.
fn step(table: &[u32], t: &[u8], i: usize, to: usize, s: Said, out: &mut [u8]) -> Said
    requires { (i < to) × (to ≤ length t.now) × (s.at + 12 ≤ last_place) × Lowers t.now i to table.now }
    ensures puts { Puts out.old s.at (sentence_chars s.first s.white (heads (part t.now i to))).text
        result.at out.new }
    ensures white_value { (result.white ≡ (sentence_chars s.first s.white (heads (part t.now i to))).white) ×
        (result.first ≡ still_first s.first s.white (heads (part t.now i to))) × (result.at ≤ s.at + 12) }
{
    if !utf8::is_boundary(t, i) {
        return s;
    }
    let c = ending::code_at(t, i, to);
    if ending::is_line_end(c) & s.white {
        return s;
    }
    let d = unbroken(c);
    let at = put_cased(table, s.first, d, out, s.at);
    let white = class::is_whitespace(d);
    Said {
        at,
        first: false,
        white,
    }
}

// A Normal text: runs that ASCII's rule is enough for at once, and what stands between them character by character.
fn put_normal(table: &[u32], t: &[u8], from: usize, to: usize, begin: Said, out: &mut [u8]) -> Said
    requires { (from ≤ to) × (to ≤ length t.now) × (begin.at + 12 * to ≤ last_place) × Lowers t.now from to table.now }
    ensures puts { Puts out.old begin.at
        (sentence_chars begin.first begin.white (chars (part t.now from to))).text result.at out.new }
    ensures white_value { (result.white ≡ (sentence_chars begin.first begin.white (chars (part t.now from to))).white) ×
        (result.at ≤ begin.at + 12 * to) }
{
    let mut s = begin;
    let mut i = from;
    // No `for`: a turn goes on by a run of any length.
    while i < to {
        let n = run_end(t, i, to);
        if (i < n) & !s.first {
            let white = ending::ends_white(t, i, n);
            let at = put_lowered(t, i, n, out, s.at);
            s = Said {
                at,
                first: false,
                white,
            };
            i = n;
        } else {
            s = step(table, t, i, to, s, out);
            i += 1;
        }
    }
    s
}

// `put_normal` with the table for characters beyond ASCII, which is made only for a text that has some: it costs 4 KB of moves.
fn normal(t: &[u8], from: usize, to: usize, begin: Said, out: &mut [u8]) -> Said
    requires { (from ≤ to) × (to ≤ length t.now) × (begin.at + 12 * to ≤ last_place) }
    ensures puts { Puts out.old begin.at
        (sentence_chars begin.first begin.white (chars (part t.now from to))).text result.at out.new }
    ensures white_value { (result.white ≡ (sentence_chars begin.first begin.white (chars (part t.now from to))).white) ×
        (result.at ≤ begin.at + 12 * to) }
{
    if block::all_ascii(&t[from..to]) {
        let none = [0u32; 0];
        return put_normal(&none, t, from, to, begin, out);
    }
    let table = casing::lower_table();
    put_normal(&table, t, from, to, begin, out)
}

// A chunk, whose text stands from one place to another.
fn sentence_one(kind: Kind, t: &[u8], from: usize, to: usize, s: Said, out: &mut [u8]) -> Formatted
    requires { (from ≤ to) × (to ≤ length t.now) × (s.at + 12 * to + 2 ≤ last_place) }
    ensures puts { Puts out.old s.at (sentence_one s.first s.white kind (part t.now from to)).text
        result.at out.new }
    ensures white_value { (result.white ≡ (sentence_one s.first s.white kind (part t.now from to)).white) ×
        (result.at ≤ s.at + 12 * to + 2) }
{
    match kind {
        Kind::Normal => {
            let r = normal(t, from, to, s, out);
            Formatted {
                at: r.at,
                white: r.white,
            }
        }
        Kind::Verbatim => format::format_one(kind, t, from, to, s.white, out, s.at),
        Kind::Math => format::format_one(kind, t, from, to, s.white, out, s.at),
    }
}

// All chunks, as far as there is room: over no bytes, this counts.
fn sentence_all(t: &[u8], rows: &[u32], room: usize, out: &mut [u8]) -> usize
    requires { (are_chunks t.now rows.now ≡ true) × (room ≤ most_room) }
    ensures { Fills (format_sentence (chunks_of t.now rows.now)) room out.old result out.new }
{
    let mut s = Said {
        at: 0,
        first: true,
        white: false,
    };
    for i in 0..rows.len() / 5 {
        let row = form::row_at(rows, i * 5);
        let kind = form::kind_from(row.kind);
        let next = sentence_one(kind, t, row.from, row.to, s, out);
        if room < next.at {
            return next.at;
        }
        s = Said {
            at: next.at,
            first: false,
            white: next.white,
        };
    }
    s.at
}

// Formats chunks in sentence case: the number of bytes, which then stand in the lent bytes, or the refusal, which leaves them as they were.
pub fn format_sentence(t: &[u8], rows: &[u32], out: &mut [u8]) -> Result<usize, Fault>
    ensures { FormatSentence t.now rows.now out.old result out.new }
{
    check::check(t, rows)?;
    let room = out.len();
    if !format::surely_fits(rows, room, 3) {
        let mut none = [0u8; 0];
        let end = sentence_all(t, rows, room, &mut none);
        if room < end {
            return Err(fault::nowhere(Reason::NoRoom));
        }
    }
    Ok(sentence_all(t, rows, room, out))
}
