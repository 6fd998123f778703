// `format_verbatim`, after chunk.rs.
ghost use Rattle.std.specs.Prelude.{◌≡◌, true, List, [], ℕ, ◌+◌, ◌≤◌, ◌<◌, leb, length};
ghost use Rattle.text.specs.Scan.{part};
ghost use Rattle.chunk.specs.Chunk.{chunk_rows, are_chunks, chunks_of};
ghost use Rattle.chunk.specs.Format.{lines as lines_of, format_one, format_verbatim};
ghost use Rattle.chunk.specs.Inner.{most_of};
ghost use Rattle.chunk.specs.Put.{last_place, most_room, Puts, Fills};
ghost use Rattle.chunk.specs.Write.{FormatVerbatim};

use crate::form::Kind;
use crate::{check, ending, form, put};
use row::fault;
use row::fault::{Fault, Reason};

// The place after what was put, and whether white space came last: each tells something by itself, so this is no `Option`.
#[derive(Clone, Copy)]
pub struct Formatted {
    pub at: usize,
    pub white: bool,
}

// A Normal text, run by run between its line ends.
fn lines(t: &[u8], from: usize, to: usize, white: bool, out: &mut [u8], at: usize) -> Formatted
    requires { (from ≤ to) × (to ≤ length t.now) × (at + to ≤ last_place) }
    ensures puts { Puts out.old at (lines_of white [] (part t.now from to)).text result.at out.new }
    ensures white_value { (result.white ≡ (lines_of white [] (part t.now from to)).white) × (result.at ≤ at + to) }
{
    let mut w = white;
    let mut i = from;
    let mut j = at;
    // No `for`: a turn goes on by a run of any length.
    while i < to {
        let n = ending::line_end(t, i, to);
        if i < n {
            w = ending::ends_white(t, i, n);
            j = put::copy(t, i, n, out, j);
            i = n;
        } else if w {
            i += 1;
        } else {
            j = put::put(out, j, 0x20);
            w = true;
            i += 1;
        }
    }
    Formatted { at: j, white: w }
}

// A chunk, whose text stands from one place to another. A text is lent with its two places and not as a slice, as `put::copy` and the functions of
// `ending` take it, whose signatures other crates use.
pub fn format_one(
    kind: Kind,
    t: &[u8],
    from: usize,
    to: usize,
    white: bool,
    out: &mut [u8],
    at: usize,
) -> Formatted
    requires { (from ≤ to) × (to ≤ length t.now) × (at + to + 2 ≤ last_place) }
    ensures puts { Puts out.old at (format_one white kind (part t.now from to)).text result.at out.new }
    ensures white_value { (result.white ≡ (format_one white kind (part t.now from to)).white) × (result.at ≤ at + to + 2) }
{
    match kind {
        Kind::Normal => lines(t, from, to, white, out, at),
        Kind::Verbatim => {
            let last = ending::ends_white(t, from, to);
            let end = put::copy(t, from, to, out, at);
            Formatted {
                at: end,
                white: last,
            }
        }
        Kind::Math => {
            let first = put::put(out, at, 0x24);
            let last = put::copy(t, from, to, out, first);
            let end = put::put(out, last, 0x24);
            Formatted { at: end, white }
        }
    }
}

// All chunks, as far as there is room: over no bytes, this counts.
fn format_all(t: &[u8], rows: &[u32], room: usize, out: &mut [u8]) -> usize
    requires { (are_chunks t.now rows.now ≡ true) × (room ≤ most_room) }
    ensures { Fills (format_verbatim (chunks_of t.now rows.now)) room out.old result out.new }
{
    let mut white = false;
    let mut at = 0;
    for i in 0..rows.len() / 5 {
        let row = form::row_at(rows, i * 5);
        let kind = form::kind_from(row.kind);
        let next = format_one(kind, t, row.from, row.to, white, out, at);
        if room < next.at {
            return next.at;
        }
        at = next.at;
        white = next.white;
    }
    at
}

// Whether there surely is room: each chunk is written as two bytes more than so many `times` its text has, at most.
pub fn surely_fits(rows: &[u32], room: usize, times: usize) -> bool
    requires { ((t : List ℕ) × (are_chunks t rows.now ≡ true)) × (room ≤ most_room) × (times ≤ 3) }
    ensures { result ≡ leb (most_of times (chunk_rows rows.now)) room }
{
    let mut n = 0;
    for i in 0..rows.len() / 5 {
        let row = form::row_at(rows, i * 5);
        n += times * (row.to - row.from) + 2;
        if room < n {
            return false;
        }
    }
    true
}

// Formats chunks verbatim: the number of bytes, which then stand in the lent bytes, or the refusal, which leaves them as they were.
pub fn format_verbatim(t: &[u8], rows: &[u32], out: &mut [u8]) -> Result<usize, Fault>
    ensures { FormatVerbatim t.now rows.now out.old result out.new }
{
    check::check(t, rows)?;
    let room = out.len();
    if !surely_fits(rows, room, 1) {
        let mut none = [0u8; 0];
        let end = format_all(t, rows, room, &mut none);
        if room < end {
            return Err(fault::nowhere(Reason::NoRoom));
        }
    }
    Ok(format_all(t, rows, room, out))
}
