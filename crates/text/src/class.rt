// Classes of code points, and the named tests that the scanner goes by where the Rust passes closures.
//
// The classes are chains of `|` and not `matches!`, which was tried: with it `eat_id` is no longer compiled into its callers, and tiny entries are
// read at 0.94 of the speed.
ghost use Rattle.std.specs.Prelude.{◌≡◌};
ghost use Rattle.text.specs.Range.{◌–◌, within};
ghost use Rattle.text.specs.Class.{is_whitespace, is_control, mark, id_marks, is_key, is_id_continue, is_id_start, holds_of};
ghost use Rattle.text.specs.Inner.{masks_of, has_bit, AsciiOf};

// A test of a character. The single ones have their names from raw.rs's `Token` where it has one. Document 01 makes named tests of the Rust's
// closures: a name has two masks (`ascii`), and a closure has none.
#[derive(Clone, Copy)]
pub enum Test {
    Whitespace,
    Key,
    IdStart,
    IdContinue,
    Digit,
    Comma,
    QuotationMark,
    Equals,
    Hash,
    Percent,
    OpeningBrace,
    ClosingBrace,
    Brace,
    Newline,
    Dollar,
}

// From first to last, both included.
fn is_within(first: u32, last: u32, c: u32) -> bool
    ensures { result ≡ within (first – last) c }
{
    (first <= c) & (c <= last)
}

pub fn is_whitespace(c: u32) -> bool
    ensures { result ≡ is_whitespace c }
{
    is_within(0x0009, 0x000d, c)
        | is_within(0x0020, 0x0020, c)
        | is_within(0x0085, 0x0085, c)
        | is_within(0x00a0, 0x00a0, c)
        | is_within(0x1680, 0x1680, c)
        | is_within(0x2000, 0x200a, c)
        | is_within(0x2028, 0x2029, c)
        | is_within(0x202f, 0x202f, c)
        | is_within(0x205f, 0x205f, c)
        | is_within(0x3000, 0x3000, c)
}

pub fn is_control(c: u32) -> bool
    ensures { result ≡ is_control c }
{
    is_within(0x0000, 0x001f, c) | is_within(0x007f, 0x009f, c)
}

fn is_key(c: u32) -> bool
    ensures { result ≡ is_key c }
{
    !((c == 0x2c) | (c == 0x7d)) & !is_control(c) & !is_whitespace(c)
}

fn is_id_mark(c: u32) -> bool
    ensures { result ≡ mark id_marks c }
{
    (c == 0x40)
        | (c == 0x7b)
        | (c == 0x7d)
        | (c == 0x22)
        | (c == 0x23)
        | (c == 0x27)
        | (c == 0x28)
        | (c == 0x29)
        | (c == 0x2c)
        | (c == 0x3d)
        | (c == 0x25)
        | (c == 0x5c)
        | (c == 0x7e)
}

fn is_id_continue(c: u32) -> bool
    ensures { result ≡ is_id_continue c }
{
    !is_id_mark(c) & !is_control(c) & !is_whitespace(c)
}

fn is_id_start(c: u32) -> bool
    ensures { result ≡ is_id_start c }
{
    !((c == 0x3a) | (c == 0x3c) | (c == 0x2d) | (c == 0x3e)) & is_id_continue(c)
}

// Whether a character passes a test.
pub fn holds(t: Test, c: u32) -> bool
    ensures { result ≡ holds_of t c }
{
    match t {
        Test::Whitespace => is_whitespace(c),
        Test::Key => is_key(c),
        Test::IdStart => is_id_start(c),
        Test::IdContinue => is_id_continue(c),
        Test::Digit => is_within(0x30, 0x39, c),
        Test::Comma => c == 0x2c,
        Test::QuotationMark => c == 0x22,
        Test::Equals => c == 0x3d,
        Test::Hash => c == 0x23,
        Test::Percent => c == 0x25,
        Test::OpeningBrace => c == 0x7b,
        Test::ClosingBrace => c == 0x7d,
        Test::Brace => (c == 0x7b) | (c == 0x7d),
        Test::Newline => c == 0x0a,
        Test::Dollar => c == 0x24,
    }
}

// A test, by what passes it: a bit for each character of ASCII, the first 64 in `low` and the others in `high`; and in `narrow`, whether no
// character beyond ASCII passes.
#[derive(Clone, Copy)]
pub struct Masks {
    pub low: u64,
    pub high: u64,
    pub narrow: bool,
}

fn row(low: u64, high: u64, narrow: bool) -> Masks
    ensures { result ≡ masks_of low high narrow }
{
    Masks { low, high, narrow }
}

// A scanner's loop asks this once, and then a bit for each byte: no comparisons, whatever the test.
pub fn ascii(t: Test) -> Masks
    ensures { AsciiOf t result }
{
    match t {
        Test::Whitespace => row(0x0000_0001_0000_3e00, 0, false),
        Test::Key => row(0xffff_effe_0000_0000, 0x5fff_ffff_ffff_ffff, false),
        Test::IdStart => row(0x8bff_cc52_0000_0000, 0x17ff_ffff_efff_fffe, false),
        Test::IdContinue => row(0xdfff_ec52_0000_0000, 0x17ff_ffff_efff_fffe, false),
        Test::Digit => row(0x03ff_0000_0000_0000, 0, true),
        Test::Comma => row(0x0000_1000_0000_0000, 0, true),
        Test::QuotationMark => row(0x0000_0004_0000_0000, 0, true),
        Test::Equals => row(0x2000_0000_0000_0000, 0, true),
        Test::Hash => row(0x0000_0008_0000_0000, 0, true),
        Test::Percent => row(0x0000_0020_0000_0000, 0, true),
        Test::OpeningBrace => row(0, 0x0800_0000_0000_0000, true),
        Test::ClosingBrace => row(0, 0x2000_0000_0000_0000, true),
        Test::Brace => row(0, 0x2800_0000_0000_0000, true),
        Test::Newline => row(0x0000_0000_0000_0400, 0, true),
        Test::Dollar => row(0x0000_0010_0000_0000, 0, true),
    }
}

// Whether a byte is a character of ASCII whose bit is set.
pub fn has(low: u64, high: u64, b: u8) -> bool
    ensures { result ≡ has_bit low high b }
{
    if b < 64 {
        return (low >> b) % 2 == 1;
    }
    if b < 128 {
        return (high >> (b - 64)) % 2 == 1;
    }
    false
}
