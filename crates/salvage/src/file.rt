// The pieces of a file one after the other: counted first, then written.
ghost use Rattle.salvage.specs.Salvage.{Salvage};
ghost use Rattle.salvage.specs.Inner.{ValidTo, FileToRead, FillsRows};

use crate::piece;
use crate::piece::Tally;
use raw::file;
use row::fault;
use row::fault::{Fault, Reason};
use row::limits::MOST_BYTES;
use text::utf8;

// The end of the longest front of a file that is valid UTF-8. The pieces in it need no check of their own.
fn valid_to(s: &[u8]) -> usize
    ensures { ValidTo s.now result }
{
    match utf8::validate(s) {
        Ok(()) => s.len(),
        Err(e) => e.at,
    }
}

// Reads all pieces and counts their rows, which fill the lent numbers where these are just as many. Over no numbers the rows are only
// counted. A turn is a piece, as long as `piece_end` says.
fn read_pieces(s: &[u8], rows: &mut [u32], valid: usize) -> Tally
    requires { FileToRead s.now valid }
    ensures { FillsRows s.now rows.old result rows.new }
{
    let mut at = 0;
    let mut n = 0;
    let mut sound = true;
    while at < s.len() {
        let base = at;
        let end = piece::piece_end(s, at);
        let i = (n * 4).min(rows.len());
        at = end;
        let read = piece::read_piece(&s[base..end], base, &mut rows[i..], end <= valid);
        n += read.rows;
        sound = sound & read.sound;
    }
    Tally { rows: n, sound }
}

// Salvages a file: the number of its rows, which then stand in the lent numbers. Refuses only a file that is too long, or that has more
// rows than there is room for, and leaves the lent numbers then as they were.
pub fn salvage(s: &[u8], rows: &mut [u32]) -> Result<usize, Fault>
    ensures { Salvage s.now rows.old result rows.new }
{
    if MOST_BYTES < s.len() {
        return Err(fault::nowhere(Reason::TooLong));
    }
    let valid = valid_to(s);
    let mut none = [0u32; 0];
    let tally = read_pieces(s, &mut none, valid);
    let n = tally.rows;
    if rows.len() / 4 < n {
        return Err(fault::nowhere(Reason::NoRoom));
    }
    if tally.sound {
        // The rows of a file without damage are those of strict reading, which needs no pieces.
        let _ = file::parse(s, 0, rows, 0);
    } else {
        // The pieces are lent only the numbers that the rows will fill, so that none of the others change.
        let end = n * 4;
        read_pieces(s, &mut rows[..end], valid);
    }
    Ok(n)
}
