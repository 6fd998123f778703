// The last character of a text, and where its lines end.
ghost use Rattle.std.specs.Prelude.{◌≡◌, true, ◌+◌, ◌≤◌, ◌<◌, length};
ghost use Rattle.text.specs.Scan.{part, code as code_of};
ghost use Rattle.chunk.specs.Format.{last_at, ends_white, is_line_end};
ghost use Rattle.chunk.specs.Inner.{plain, stops};

use reader;
use text::{block, class, utf8};

// The place of the last character of the text from one place to another.
pub fn last_at(t: &[u8], from: usize, to: usize) -> usize
    requires { (from ≤ to) × (to ≤ length t.now) }
    ensures { result ≡ from + last_at (part t.now from to) }
{
    for i in (from..to).rev() {
        if utf8::is_boundary(t, i) {
            return i;
        }
    }
    from
}

// The code point of the character at a place, in the text that ends at `to`.
pub fn code_at(t: &[u8], at: usize, to: usize) -> u32
    requires { (at < to) × (to ≤ length t.now) }
    ensures { result ≡ code_of (part t.now at to) }
{
    match reader::seen(&t[..to], at) {
        None => 0,
        Some((code, _)) => code,
    }
}

// Whether the text from one place to another ends in white space.
pub fn ends_white(t: &[u8], from: usize, to: usize) -> bool
    requires { (from ≤ to) × (to ≤ length t.now) }
    ensures { result ≡ ends_white (part t.now from to) }
{
    if to <= from {
        return false;
    }
    let b = t[to - 1];
    if b < 0x80 {
        return (b == 0x20) | ((0x09 <= b) & (b <= 0x0d));
    }
    let at = last_at(t, from, to);
    let c = code_at(t, at, to);
    class::is_whitespace(c)
}

// Whether a character, or an octet, ends a line.
pub(crate) fn is_line_end(c: u32) -> bool
    ensures { result ≡ is_line_end c }
{
    (c == 0x0a) | (c == 0x0d)
}

// The first line end from a place on, or the end.
pub fn line_end(t: &[u8], from: usize, to: usize) -> usize
    requires { (from ≤ to) × (to ≤ length t.now) }
    ensures { (plain (part t.now from result) ≡ true) × (stops (part t.now result to) ≡ true) × (from ≤ result) × (result ≤ to) }
{
    for i in block::past_lines(&t[..to], from)..to {
        if is_line_end(u32::from(t[i])) {
            return i;
        }
    }
    to
}
