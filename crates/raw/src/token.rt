// Tokens, after src/raw.rs: `comma`, `brace` (here `opening` and `closing`), `quote`, `equals`, `comment`, `key`, `ident`; and `name`, which is a
// quicker `ident`. None puts a row.
ghost use Rattle.std.specs.Prelude.{◌≡◌, ℕ, Bool, false, ◌≤◌, ◌<◌, max, length};
ghost use Rattle.raw.specs.Inner.{AsciiOnly, Tests};
ghost use Rattle.text.specs.Class.{is_id_continue};
ghost use Rattle.raw.specs.Grammar.{need, comma, at_sign, opening, closing, quote, equals, comment, key, ident};
ghost use Rattle.raw.specs.Says.{step_of, Onward};

use row::fault;
use row::fault::{Fault, Reason};
use text::scanner;

// Eat a byte that passes a test, which only ASCII passes, or refuse with a reason.
fn need<F: Fn(u8) -> bool>(s: &[u8], at: usize, test: F, reason: Reason) -> Result<usize, Fault>
    requires { F.IsAlwaysCallable test }
    ensures { (t : ℕ → Bool) → AsciiOnly t → Tests (F.post test) t → (result ≡ step_of (need t reason s.now at)) × Onward (length s.now) 1 at result }
{
    if at < s.len() {
        if test(s[at]) {
            return Ok(at + 1);
        }
    }
    Err(fault::fault_at(reason, at))
}

// Eat a comma.
pub fn comma(s: &[u8], at: usize) -> Result<usize, Fault>
    ensures { (result ≡ step_of (comma s.now at)) × Onward (length s.now) 1 at result }
{
    need(s, at, |b| b == b',', Reason::ExpectedComma)
}

// Eat the "@" that an entry begins with.
pub fn at_sign(s: &[u8], at: usize) -> Result<usize, Fault>
    ensures { (result ≡ step_of (at_sign s.now at)) × Onward (length s.now) 1 at result }
{
    need(s, at, |b| b == b'@', Reason::ExpectedIdentifier)
}

// Eat the delimiter that opens: a brace, or a double quote.
pub fn opening(s: &[u8], at: usize) -> Result<usize, Fault>
    ensures { (result ≡ step_of (opening s.now at)) × Onward (length s.now) 1 at result }
{
    need(
        s,
        at,
        |b| (b == b'{') | (b == b'"'),
        Reason::ExpectedOpeningBrace,
    )
}

// Eat the delimiter that closes: a brace, or a double quote.
pub fn closing(s: &[u8], at: usize) -> Result<usize, Fault>
    ensures { (result ≡ step_of (closing s.now at)) × Onward (length s.now) 1 at result }
{
    need(
        s,
        at,
        |b| (b == b'}') | (b == b'"'),
        Reason::ExpectedClosingBrace,
    )
}

// Eat a quote.
pub fn quote(s: &[u8], at: usize) -> Result<usize, Fault>
    ensures { (result ≡ step_of (quote s.now at)) × Onward (length s.now) 1 at result }
{
    need(s, at, |b| b == b'"', Reason::ExpectedQuotationMark)
}

// Eat an equals sign.
pub fn equals(s: &[u8], at: usize) -> Result<usize, Fault>
    ensures { (result ≡ step_of (equals s.now at)) × Onward (length s.now) 1 at result }
{
    need(s, at, |b| b == b'=', Reason::ExpectedEquals)
}

// The place after an inline comment, if there is one.
pub fn comment(s: &[u8], at: usize) -> usize
    ensures { (Ok result ≡ step_of (comment s.now at)) × (at ≤ result) × (result ≤ max at (length s.now)) }
{
    let next = scanner::eat_byte(s, at, 0x25);
    if next == at {
        return at;
    }
    scanner::eat_line(s, next)
}

// Eat an entry key.
pub fn key(s: &[u8], at: usize) -> usize
    ensures { (Ok result ≡ step_of (key s.now at)) × (at ≤ result) × (result ≤ max at (length s.now)) }
{
    scanner::eat_key(s, at)
}

// Eat an identifier.
pub fn ident(s: &[u8], at: usize) -> Result<usize, Fault>
    ensures { (result ≡ step_of (ident s.now at)) × Onward (length s.now) 1 at result }
{
    let next = scanner::eat_start(s, at);
    if next == at {
        return Err(fault::fault_at(Reason::ExpectedIdentifier, at));
    }
    Ok(scanner::eat_id(s, next))
}

// Eat an identifier: the name of a field, or an entry's type. It is of letters mostly, and a blank ends it, or the byte that is named.
pub fn name(s: &[u8], at: usize, ender: u8) -> Result<usize, Fault>
    requires { (ender < 128) × (is_id_continue ender ≡ false) }
    ensures { (result ≡ step_of (ident s.now at)) × Onward (length s.now) 1 at result }
{
    let end = scanner::eat_letters(s, at);
    if at < end {
        if end < s.len() {
            let b = s[end];
            if (b == 0x20) | (b == ender) {
                return Ok(end);
            }
        }
    }
    ident(s, at)
}
