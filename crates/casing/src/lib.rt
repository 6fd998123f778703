// Full upper and lower mappings of characters, after Unicode: the sharp s, U+00DF, is raised to two characters, S and S.
//
// `to_lowercase` makes its table anew for its one question, which costs 4 KB of moves. Whoever asks more than once makes it once, by
// `lower_table`, and hands it down to `lowered`.
#![tactic(auto)]

mod lowers;
mod uppers;

ghost use Rattle.std.specs.Prelude.{◌≡◌};
ghost use Rattle.casing.specs.Mapping.{Table, Maps, Spells, numbers};
ghost use Rattle.casing.specs.Lowers.{lowers};
ghost use Rattle.casing.specs.Uppers.{uppers};
ghost use Rattle.text.specs.Range.{◌–◌, within};
ghost use Rattle.casing.specs.Casing.{to_lowercase, to_uppercase, is_settled};

// The characters that one character is mapped to: 0 where there is none, as in most images for the second and third.
#[derive(Clone, Copy, PartialEq, Eq)]
pub struct Image {
    pub one: u32,
    pub two: u32,
    pub three: u32,
}

// The table that `lowered` searches.
pub fn lower_table() -> [u32; 1116]
    ensures { result ≡ numbers lowers }
{
    lowers::LOWERS
}

fn upper_table() -> [u32; 1566]
    ensures { result ≡ numbers uppers }
{
    uppers::UPPERS
}

// The image of a character by a table t. Of the rows that do not end before c, the first is the only one that can have it: it has c if it
// begins at c or before, and c is whole steps behind its first character. The table is flat numbers and not rows, because callers are lent it
// so: `lower_table` and `lowered` promise `numbers lowers`.
fn find(t: &[u32], c: u32) -> Image
    requires { Table t.now }
    ensures { Maps t.now c result.one result.two result.three }
{
    let itself = Image {
        one: c,
        two: 0,
        three: 0,
    };
    let i = search::place(t, 6, c, 0) * 6;
    let Some(&[_, first, step, one, two, three]) = t[i..].first_chunk::<6>() else {
        return itself;
    };
    if c < first {
        return itself;
    }
    let far = c - first;
    let over = far % step;
    if over != 0 {
        return itself;
    }
    Image {
        one: one + far,
        two,
        three,
    }
}

// A character lowered, by the table of `lower_table`.
pub fn lowered(t: &[u32], c: u32) -> Image
    requires { t.now ≡ numbers lowers }
    ensures { Spells result.one result.two result.three (to_lowercase c) }
{
    find(t, c)
}

// A character lowered.
pub fn to_lowercase(c: u32) -> Image
    ensures { Spells result.one result.two result.three (to_lowercase c) }
{
    let t = lower_table();
    lowered(&t, c)
}

// A character raised.
pub fn to_uppercase(c: u32) -> Image
    ensures { Spells result.one result.two result.three (to_uppercase c) }
{
    let t = upper_table();
    find(&t, c)
}

// From first to last, both included.
fn is_within(first: u32, last: u32, c: u32) -> bool
    ensures { result ≡ within (first – last) c }
{
    (first..=last).contains(&c)
}

// Whether a character beyond ASCII surely is lowered to itself. Most are, and this is quicker than a search. As one `matches!` it jumps for each
// character, and a text whose letters are of several scripts was written in sentence case in 1.3 to 1.6 times the time.
pub fn is_settled(c: u32) -> bool
    ensures { result ≡ is_settled c }
{
    is_within(0x0080, 0x00bf, c)
        | is_within(0x00df, 0x00ff, c)
        | is_within(0x0250, 0x036f, c)
        | is_within(0x03ac, 0x03ce, c)
        | is_within(0x0430, 0x045f, c)
        | is_within(0x0557, 0x109f, c)
        | is_within(0x2000, 0x2125, c)
        | is_within(0x2d00, 0xa63f, c)
        | is_within(0xac00, 0xd7ff, c)
}
