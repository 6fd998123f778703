// UTF-8 by RFC 3629. `specs/Utf8.antt` has the RFC's grammar and table, `specs/Rfc3629.antt` what they settle.
ghost use Rattle.std.specs.Prelude.{◌≡◌, true, ℕ, get_or, ◌∷◌, ◌+◌, ◌-◌, ◌%◌, ◌≤◌, ◌<◌, max, length, take, drop, replicate};
ghost use Rattle.text.specs.Range.{within};
ghost use Rattle.text.specs.Utf8.{tail, begins, width, sequence_length, value, is_scalar, further, validity_of, decode_at, Encode, is_boundary};
ghost use Rattle.text.specs.Inner.{seconds, goes_second};

use crate::block;

// Where the first ill-formed sequence of a text starts.
#[derive(Clone, Copy)]
pub struct IllFormed {
    pub at: usize,
}

// What stands at a place: a code point and the place after it, an octet that starts no sequence, or the end. Three cases, of which none is a
// refusal: `peek` makes U+FFFD of the second.
#[derive(Clone, Copy)]
pub enum Decoded {
    End,
    Char { code: u32, next: usize },
    IllFormed,
}

// Why no octets of a code point were written.
#[derive(Clone, Copy)]
pub enum EncodeError {
    NotScalar,
    NoRoom,
}

fn wide(b: u8) -> u32
    ensures { result ≡ b }
{
    b as u32
}

// The number of leading one bits of the first byte, none meaning one.
fn sequence_length(b: u8) -> usize
    ensures { result ≡ sequence_length b }
{
    let ones = u8::leading_zeros(!b);
    if ones == 0 { 1 } else { ones as usize }
}

fn is_tail(b: u8) -> bool
    ensures { result ≡ within tail b }
{
    (0x80 <= b) & (b <= 0xbf)
}

// Whether b may follow a as the second octet of a sequence: E0, ED, F0 and F4 leave out overlong forms, surrogates and what is too large.
fn goes_second(a: u8, b: u8) -> bool
    ensures { result ≡ goes_second a b }
{
    match a {
        0xe0 => (0xa0 <= b) & (b <= 0xbf),
        0xed => (0x80 <= b) & (b <= 0x9f),
        0xf0 => (0x90 <= b) & (b <= 0xbf),
        0xf4 => (0x80 <= b) & (b <= 0x8f),
        _ => (0x80 <= b) & (b <= 0xbf),
    }
}

// Whether the octets behind a, which starts a sequence of n octets at a place, continue that sequence.
fn goes_on(s: &[u8], at: usize, a: u8, n: usize) -> bool
    requires { (at + n ≤ length s.now) × (2 ≤ n) × (n ≤ 4) }
    ensures { result ≡ begins (seconds a ∷ replicate (n - 2) tail) (drop (at + 1) s.now) }
{
    let two = goes_second(a, s[at + 1]);
    if n == 2 {
        return two;
    }
    let three = two & is_tail(s[at + 2]);
    if n == 3 {
        return three;
    }
    three & is_tail(s[at + 3])
}

// The number of octets of the well-formed sequence at a place, and 0 where there is none.
fn sequence(s: &[u8], at: usize) -> usize
    ensures { (result ≡ width (drop at s.now)) × (at + result ≤ max at (length s.now)) × (result ≤ 4) }
{
    if s.len() <= at {
        return 0;
    }
    let a = s[at];
    if a < 0x80 {
        return 1;
    }
    if (a < 0xc2) | (0xf4 < a) {
        return 0;
    }
    let n = sequence_length(a);
    if s.len() - at < n {
        return 0;
    }
    if goes_on(s, at, a, n) {
        return n;
    }
    0
}

// Whether a sequence of two octets stands at a place; and of three, with the first octets that any two tails may follow. These are most of what is
// not ASCII, and a test of its own for each lets the machine go on before it knows the answer.
fn is_two(s: &[u8], at: usize) -> bool
    requires { at < length s.now }
    ensures { result ≡ true → (width (drop at s.now) ≡ 2) × (at + 2 ≤ length s.now) }
{
    if s.len() - at < 2 {
        return false;
    }
    (0xc2 <= s[at]) & (s[at] <= 0xdf) & is_tail(s[at + 1])
}

fn is_three(s: &[u8], at: usize) -> bool
    requires { at < length s.now }
    ensures { result ≡ true → (width (drop at s.now) ≡ 3) × (at + 3 ≤ length s.now) }
{
    if s.len() - at < 3 {
        return false;
    }
    (0xe1 <= s[at]) & (s[at] <= 0xec) & is_tail(s[at + 1]) & is_tail(s[at + 2])
}

// Whether all of s is UTF-8, or the first byte of its first ill-formed sequence. A turn passes a sequence, or all the ASCII there.
pub fn validate(s: &[u8]) -> Result<(), IllFormed>
    ensures { result ≡ validity_of s.now }
{
    let mut at = 0;
    while at < s.len() {
        if s[at] < 0x80 {
            at = block::past_ascii(s, at + 1);
        } else if is_two(s, at) {
            at += 2;
        } else if is_three(s, at) {
            at += 3;
        } else {
            let n = sequence(s, at);
            if n == 0 {
                return Err(IllFormed { at });
            }
            at += n;
        }
    }
    Ok(())
}

// The first octet that is not ASCII, or the end.
fn wide_at(s: &[u8]) -> usize
    ensures to { result ≤ length s.now }
    ensures narrow { (k : ℕ) → k < result → get_or s.now k 0 < 0x80 }
    ensures wide { result < length s.now → 0x80 ≤ get_or s.now result 0 }
{
    s.iter().position(|b| 0x80 <= *b).unwrap_or(s.len())
}

// `validate`, quicker for a text of a few bytes: a text that is ASCII, or whose first octet beyond ASCII begins no sequence, is settled here,
// with nothing prepared for blocks.
pub fn validate_short(s: &[u8]) -> Result<(), IllFormed>
    ensures { result ≡ validity_of s.now }
{
    if s.len() < 16 {
        let at = wide_at(s);
        if s.len() <= at {
            return Ok(());
        }
        let a = s[at];
        if (a < 0xc2) | (0xf4 < a) {
            return Err(IllFormed { at });
        }
    }
    validate(s)
}

// The low six bits of an octet that continues a sequence.
fn six(b: u8) -> u32
    ensures { result ≡ b % 64 }
{
    wide(b) % 64
}

// The code point of the n octets at a place.
fn value_at(s: &[u8], at: usize, n: usize) -> u32
    requires { (at + n ≤ length s.now) × (0 < n) × (n ≤ 4) }
    ensures { result ≡ value (take n (drop at s.now)) }
{
    let a = wide(s[at]);
    if n == 1 {
        return a % 128;
    }
    let b = six(s[at + 1]);
    if n == 2 {
        return a % 32 * 64 + b;
    }
    let c = six(s[at + 2]);
    if n == 3 {
        return (a % 16 * 64 + b) * 64 + c;
    }
    let d = six(s[at + 3]);
    ((a % 8 * 64 + b) * 64 + c) * 64 + d
}

// What stands at a place of any bytes.
pub fn decode(s: &[u8], at: usize) -> Decoded
    ensures { result ≡ decode_at s.now at }
{
    if s.len() <= at {
        return Decoded::End;
    }
    let n = sequence(s, at);
    if n == 0 {
        return Decoded::IllFormed;
    }
    let code = value_at(s, at, n);
    Decoded::Char { code, next: at + n }
}

fn is_scalar(c: u32) -> bool
    ensures { result ≡ is_scalar c }
{
    (c <= 0x10ffff) & !((0xd800 <= c) & (c <= 0xdfff))
}

// 10xxxxxx, with the low six bits of c.
fn further_of(c: u32) -> u8
    ensures { result ≡ further c }
{
    (0x80 + c % 64) as u8
}

// The octets of a scalar value, over the first of the lent bytes. Where c is no scalar value, or its octets have no room, nothing is written.
pub fn encode(c: u32, out: &mut [u8]) -> Result<usize, EncodeError>
    ensures { Encode c out.old result out.new }
{
    if !is_scalar(c) {
        return Err(EncodeError::NotScalar);
    }
    let room = out.len();
    if c <= 0x7f {
        if room < 1 {
            return Err(EncodeError::NoRoom);
        }
        out[0] = c as u8;
        return Ok(1);
    }
    if c <= 0x7ff {
        if room < 2 {
            return Err(EncodeError::NoRoom);
        }
        out[0] = (0xc0 + c / 64) as u8;
        out[1] = further_of(c);
        return Ok(2);
    }
    if c <= 0xffff {
        if room < 3 {
            return Err(EncodeError::NoRoom);
        }
        out[0] = (0xe0 + c / 64 / 64) as u8;
        out[1] = further_of(c / 64);
        out[2] = further_of(c);
        return Ok(3);
    }
    if room < 4 {
        return Err(EncodeError::NoRoom);
    }
    out[0] = (0xf0 + c / 64 / 64 / 64) as u8;
    out[1] = further_of(c / 64 / 64);
    out[2] = further_of(c / 64);
    out[3] = further_of(c);
    Ok(4)
}

// Whether a place is the end, or one where no sequence is cut: in a valid text, a place between two characters.
pub fn is_boundary(s: &[u8], n: usize) -> bool
    ensures { result ≡ is_boundary s.now n }
{
    if n < s.len() {
        return !is_tail(s[n]);
    }
    n == s.len()
}

// `validate`, quicker for a text that is short and ASCII.
pub fn validate_text(s: &[u8]) -> Result<(), IllFormed>
    ensures { result ≡ validity_of s.now }
{
    if s.len() < 256 {
        if block::all_ascii(s) {
            return Ok(());
        }
    }
    validate(s)
}
