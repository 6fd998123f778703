// A piece of a file: where it ends, and what reading it alone gives.
ghost use Rattle.std.specs.Prelude.{◌≡◌, ◌&&◌, ◌+◌, ◌-◌, ◌≤◌, ◌<◌, length, get_or, drop};
ghost use Rattle.row.specs.Row.{moved, overlay};
ghost use Rattle.salvage.specs.Salvage.{head, newline, damaged};
ghost use Rattle.salvage.specs.Inner.{PieceEnds, PutsPiece, PieceToRead, DamageToWrite};

use raw::file;
use row::fault::Fault;
use row::form::Kind;
use row::{fault, form};
use text::{block, utf8};

// A number of rows, and whether all are sound: no damage is among them.
#[derive(Clone, Copy)]
pub struct Tally {
    pub rows: usize,
    pub sound: bool,
}

// Whether a piece begins at a place after the first.
fn begins(s: &[u8], i: usize) -> bool
    requires { (0 < i) × (i < length s.now) }
    ensures { result ≡ (newline (get_or s.now (i - 1) 0) && head (drop i s.now)) }
{
    if s[i] != 0x40 {
        return false;
    }
    s[i - 1] == 0x0a
}

// The length of the piece that begins at a place, if it is less than eight; else 0. Bytes are looked at one by one, which is quicker for a
// short piece than the blocks of `find`. With an `Option` as its result pieces of three bytes took 1.4 times as long to salvage.
fn short_length(s: &[u8], at: usize) -> usize
    requires { at + 8 ≤ length s.now }
    ensures { 0 < result → PieceEnds s.now at (at + result) }
{
    for k in 1..8 {
        if begins(s, at + k) {
            return k;
        }
    }
    0
}

// The end of the piece that begins at a place, however long: each "@" is found, and the byte before it tells. A turn goes on from what is found.
fn far_end(s: &[u8], at: usize) -> usize
    requires { at < length s.now }
    ensures { PieceEnds s.now at result }
{
    let mut i = at;
    loop {
        let j = block::find(s, i + 1, 0x40);
        if s.len() <= j {
            return j;
        }
        if s[j - 1] == 0x0a {
            return j;
        }
        i = j;
    }
}

// The end of the piece that begins at a place: after the first newline that a head follows, or at the end of the file.
pub fn piece_end(s: &[u8], at: usize) -> usize
    requires { at < length s.now }
    ensures { PieceEnds s.now at result }
{
    if 8 <= s.len() - at {
        let k = short_length(s, at);
        if 0 < k {
            return at + k;
        }
    }
    far_end(s, at)
}

// The damage of a piece that is refused, and the cause.
fn write_damage(w: &[u8], base: usize, rows: &mut [u32], fault: Fault)
    requires { DamageToWrite w.now base fault }
    ensures { rows.new ≡ overlay rows.old 0 (moved base (damaged w.now fault)) }
{
    form::put_row(rows, 0, Kind::Damage, base, 0, w.len());
    let start = base + fault.start;
    let end = base + fault.end;
    form::write_row(
        rows,
        1,
        Kind::Cause,
        fault::number(fault.reason),
        start,
        end,
    );
}

// Reads a piece alone, whose rows then stand in front of the lent numbers where all of them fit. Its UTF-8 is checked unless it is known to be
// valid. What a refused piece wrote before its fault is overwritten by its damage and cause, or stands behind these, where the rows of later
// pieces go. Where there is no room for these two, as when rows are counted, nobody asks for the place of the cause.
pub fn read_piece(w: &[u8], base: usize, rows: &mut [u32], valid: bool) -> Tally
    requires { PieceToRead w.now base valid }
    ensures { PutsPiece w.now base rows.old result rows.new }
{
    if !valid {
        if let Err(e) = utf8::validate_short(w) {
            write_damage(w, base, rows, Fault::from(e));
            return Tally {
                rows: 2,
                sound: false,
            };
        }
    }
    match file::parse(w, base, rows, 0) {
        Ok((_, n)) => Tally {
            rows: n,
            sound: true,
        },
        Err(f) => {
            if 8 <= rows.len() {
                write_damage(w, base, rows, file::culprit(w, f));
            }
            Tally {
                rows: 2,
                sound: false,
            }
        }
    }
}
