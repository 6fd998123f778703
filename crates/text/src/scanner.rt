// The scanner, after unscanny: functions on the slice and a place by value. Total on any bytes and any place: past the end there is the
// end, and a byte that starts no well-formed sequence is a character by itself, U+FFFD.
ghost use Rattle.std.specs.Prelude.{◌≡◌, ◌+◌, ◌-◌, ◌<◌, min, length};
ghost use Rattle.text.specs.Class.{is_whitespace, is_key, is_id_start, is_id_continue, holds_of};
ghost use Rattle.text.specs.Scan.{see, next_of, past_one, single, skip, fails, part, Ahead, Inside};
ghost use Rattle.text.specs.Inner.{wants, AsciiRun, letter_of, Letters};

use crate::class::Test;
use crate::utf8::Decoded;
use crate::{block, class, utf8};

// `peek` where the byte is not ASCII, kept out of the callers' loops. It is right at any byte.
fn peek_wide(s: &[u8], at: usize) -> Option<(u32, usize)>
    requires { at < length s.now }
    ensures { result ≡ see s.now at }
{
    match utf8::decode(s, at) {
        Decoded::End => None,
        Decoded::Char { code, next } => Some((code, next)),
        Decoded::IllFormed => Some((0xfffd, at + 1)),
    }
}

// What stands at a place: a code point and the place after it; nothing at the end.
pub fn peek(s: &[u8], at: usize) -> Option<(u32, usize)>
    ensures { (result ≡ see s.now at) × Inside s.now at result }
{
    if s.len() <= at {
        return None;
    }
    let b = s[at];
    if b < 0x80 {
        return Some((b as u32, at + 1));
    }
    peek_wide(s, at)
}

// The place after the character.
pub fn eat(s: &[u8], at: usize) -> usize
    ensures { (result ≡ next_of at (see s.now at)) × Ahead s.now at result }
{
    match peek(s, at) {
        None => at,
        Some((_, next)) => next,
    }
}

// The place after the character at a place where it passes the test, or does not, as wanted; and the place itself otherwise.
fn eat_wide(s: &[u8], at: usize, t: Test, want: bool) -> usize
    ensures { result ≡ past_one (wants t want) at (see s.now at) }
{
    match peek(s, at) {
        None => at,
        Some((code, next)) => {
            if class::holds(t, code) == want {
                return next;
            }
            at
        }
    }
}

// The place after the bytes of ASCII from a place on whose bit is as wanted. Nothing is called here, so that the loop keeps the slice at hand.
fn ascii_run(s: &[u8], at: usize, low: u64, high: u64, want: bool) -> usize
    ensures { AsciiRun low high want s.now at result }
{
    let mut i = at;
    // As a `for` over the range, tiny entries are read at 0.8 of the speed.
    while i < s.len() {
        let b = s[i];
        if 0x80 <= b {
            return i;
        }
        if class::has(low, high, b) != want {
            return i;
        }
        i += 1;
    }
    i
}

// The place after the characters from a place on that pass the test, or do not, as wanted. For texts with more than ASCII: every scanner comes
// here for what its own loop does not know, so that this stays out of them. A turn passes a run of ASCII, and then a character of several octets.
fn eat_rest(s: &[u8], at: usize, t: Test, want: bool) -> usize
    ensures { (result ≡ skip (wants t want) s.now at) × Ahead s.now at result }
{
    let masks = class::ascii(t);
    let low = masks.low;
    let high = masks.high;
    let narrow = masks.narrow;
    let mut i = at;
    while i < s.len() {
        let j = ascii_run(s, i, low, high, want);
        if s.len() <= j {
            return j;
        }
        if s[j] < 0x80 {
            return j;
        }
        if narrow {
            if want {
                return j;
            }
            i = j + 1;
        } else {
            let next = eat_wide(s, j, t, want);
            if next == j {
                return j;
            }
            i = next;
        }
    }
    i
}

// `eat_rest`, with a loop of its own over ASCII, which is small enough to be made for each test.
fn eat_run(s: &[u8], at: usize, t: Test, want: bool) -> usize
    ensures { (result ≡ skip (wants t want) s.now at) × Ahead s.now at result }
{
    let masks = class::ascii(t);
    let low = masks.low;
    let high = masks.high;
    let i = ascii_run(s, at, low, high, want);
    if s.len() <= i {
        return i;
    }
    if s[i] < 0x80 {
        return i;
    }
    eat_rest(s, i, t, want)
}

// The place after the character where it passes the test: of ASCII by its bit, which is quicker than comparisons.
pub fn eat_if(s: &[u8], at: usize, t: Test) -> usize
    ensures { (result ≡ past_one (holds_of t) at (see s.now at)) × Ahead s.now at result }
{
    if s.len() <= at {
        return at;
    }
    let b = s[at];
    if 0x80 <= b {
        return eat_wide(s, at, t, true);
    }
    let masks = class::ascii(t);
    let low = masks.low;
    let high = masks.high;
    if class::has(low, high, b) {
        return at + 1;
    }
    at
}

// The place after the character x of ASCII, if it stands at the place; else the place itself.
pub fn eat_byte(s: &[u8], at: usize, x: u8) -> usize
    requires { x < 0x80 }
    ensures { (result ≡ past_one (single x) at (see s.now at)) × Ahead s.now at result }
{
    if s.len() <= at {
        return at;
    }
    if s[at] == x {
        return at + 1;
    }
    at
}

pub fn eat_until(s: &[u8], at: usize, t: Test) -> usize
    ensures { (result ≡ skip (fails t) s.now at) × Ahead s.now at result }
{
    eat_run(s, at, t, false)
}

fn is_letter(b: u8) -> bool
    ensures { result ≡ letter_of b }
{
    ((0x61 <= b) & (b <= 0x7a)) | ((0x41 <= b) & (b <= 0x5a))
}

// By comparisons, with nothing called in the loop: small enough to stand in each caller. Most white space is U+0020, and most of what ends it is
// ASCII.
pub fn eat_whitespace(s: &[u8], at: usize) -> usize
    ensures { (result ≡ skip is_whitespace s.now at) × Ahead s.now at result }
{
    let mut i = at;
    // As a `for` over the range, tiny entries are read at 0.8 of the speed.
    while i < s.len() {
        let b = s[i];
        if b != 0x20 {
            if (0x20 < b) & (b < 0x80) {
                return i;
            }
            if !((0x09 <= b) & (b <= 0x0d)) {
                return eat_rest(s, i, Test::Whitespace, true);
            }
        }
        i += 1;
    }
    i
}

// `eat_whitespace`, where there may be much: between entries.
pub fn eat_gap(s: &[u8], at: usize) -> usize
    ensures { (result ≡ skip is_whitespace s.now at) × Ahead s.now at result }
{
    eat_whitespace(s, block::past_white(s, at))
}

// The place after the letters of ASCII from a place on.
pub fn eat_letters(s: &[u8], at: usize) -> usize
    ensures { Letters s.now at result }
{
    let mut i = at;
    // As a `for` over the range, tiny entries are read at 0.8 of the speed.
    while i < s.len() {
        if !is_letter(s[i]) {
            return i;
        }
        i += 1;
    }
    i
}

// `eat_if` of `IdStart`, and `eat_while` of `IdContinue`, which are letters mostly.
pub fn eat_start(s: &[u8], at: usize) -> usize
    ensures { (result ≡ past_one is_id_start at (see s.now at)) × Ahead s.now at result }
{
    if s.len() <= at {
        return at;
    }
    let b = s[at];
    if is_letter(b) {
        return at + 1;
    }
    eat_if(s, at, Test::IdStart)
}

pub fn eat_id(s: &[u8], at: usize) -> usize
    ensures { (result ≡ skip is_id_continue s.now at) × Ahead s.now at result }
{
    let mut i = at;
    // As a `for` over the range, tiny entries are read at 0.8 of the speed.
    while i < s.len() {
        let b = s[i];
        if !is_letter(b) {
            if (b == 0x20) | (b == 0x3d) {
                return i;
            }
            return eat_rest(s, i, Test::IdContinue, true);
        }
        i += 1;
    }
    i
}

// `eat_while` of `Key`: a key ends at a comma mostly.
pub fn eat_key(s: &[u8], at: usize) -> usize
    ensures { (result ≡ skip is_key s.now at) × Ahead s.now at result }
{
    let mut i = at;
    // As a `for` over the range, tiny entries are read at 0.8 of the speed.
    while i < s.len() {
        let b = s[i];
        if (b <= 0x20) | (b == 0x2c) | (0x7d <= b) {
            if (b == 0x2c) | (b == 0x7d) {
                return i;
            }
            return eat_rest(s, i, Test::Key, true);
        }
        i += 1;
    }
    i
}

// `eat_until` of `Newline`.
pub fn eat_line(s: &[u8], at: usize) -> usize
    ensures { (result ≡ skip (fails Test.Newline) s.now at) × Ahead s.now at result }
{
    block::find(s, at, 0x0a)
}

// The text from one place to another, as far as it goes.
pub fn from(s: &[u8], start: usize, at: usize) -> &[u8]
    ensures { result.now ≡ part s.now start at }
{
    let end = at.min(s.len());
    &s[start.min(end)..end]
}
