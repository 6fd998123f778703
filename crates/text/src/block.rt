// Blocks of bytes, sixteen or sixty-four at a time: how far a text goes without a byte of a set, how far it is plain, and copies.
//
// The loop that looks at a block takes differences and minima only. No comparison decides in it, so the compiler works on the whole block at once.
// A new distance stands before `min` and the least so far behind it: the other way round the compiler shuffles each block first, and text in
// sentence case went at 0.67 of the speed.
//
// The loops over blocks count a place by hand, because the place is their answer, `at` may lie past the end of the text, and a last block may overlap
// the one before it: `chunks_exact` would count the same place beside its blocks.
ghost use Rattle.std.specs.Prelude.{◌≡◌, true, false, ◌+◌, ◌-◌, ◌≤◌, ◌<◌, min, max, length};
ghost use Rattle.std.proofs.lemmas.List.Edits.{sets};
ghost use Rattle.text.specs.Scan.{part};
ghost use Rattle.text.specs.Block.{in_set, apart, braces, quotes, others, solids, lines, breaks, Clear, Found, is_simple, PlainRun};

// The bytes from the first to the last, both included.
#[derive(Clone, Copy)]
pub struct Interval(pub u8, pub u8);

impl Interval {
    // How far a byte is from the interval.
    fn apart(self, b: u8) -> u8
        ensures { result ≡ apart self b }
    {
        let Interval(first, last) = self;
        first.saturating_sub(b) + b.saturating_sub(last)
    }
}

// The bytes of three intervals, which may be the same.
#[derive(Clone, Copy)]
pub struct Set {
    pub one: Interval,
    pub two: Interval,
    pub three: Interval,
}

// A brace, a backslash, or "|", which stands between the braces.
const BRACES: Set = Set {
    one: Interval(0x5c, 0x5c),
    two: Interval(0x7b, 0x7d),
    three: Interval(0x7b, 0x7d),
};

// A quotation mark or a backslash.
const QUOTES: Set = Set {
    one: Interval(0x5c, 0x5c),
    two: Interval(0x22, 0x22),
    three: Interval(0x22, 0x22),
};

// What is not white space of ASCII.
const SOLIDS: Set = Set {
    one: Interval(0x00, 0x08),
    two: Interval(0x0e, 0x1f),
    three: Interval(0x21, 0xff),
};

// What is not ASCII.
const OTHERS: Set = Set {
    one: Interval(0x80, 0xff),
    two: Interval(0x80, 0xff),
    three: Interval(0x80, 0xff),
};

// The bytes below 0x0e, line ends among them.
const LINES: Set = Set {
    one: Interval(0x00, 0x0d),
    two: Interval(0x00, 0x0d),
    three: Interval(0x00, 0x0d),
};

// These, and what is not ASCII.
const BREAKS: Set = Set {
    one: Interval(0x00, 0x0d),
    two: Interval(0x80, 0xff),
    three: Interval(0x80, 0xff),
};

impl Set {
    // How far a byte is from the set: 0 where it is one of it.
    fn distance(self, b: u8) -> u8
        ensures { 0 < result → in_set self b ≡ false }
    {
        self.three
            .apart(b)
            .min(self.two.apart(b))
            .min(self.one.apart(b))
    }
}

// The place k of a byte in its block where its distance d is 0, and a greater number otherwise.
fn place(d: u8, k: u8) -> u8
    requires { k < 16 }
    ensures { k < result → 0 < d }
{
    d.min(15) * 16 + k
}

// How many of the sixteen bytes from a place on stand before the first of the set.
fn part(s: &[u8], at: usize, x: Set) -> usize
    requires { at + 16 ≤ length s.now }
    ensures { Clear x s.now at (at + result) × (result ≤ 16) }
{
    let mut m: u8 = 16;
    for k in 0..16u8 {
        m = place(x.distance(s[at + k as usize]), k).min(m);
    }
    m as usize
}

// Whether n bytes stand from a place on.
pub fn has(s: &[u8], at: usize, n: usize) -> bool
    ensures { result ≡ true → at + n ≤ length s.now }
{
    if s.len() < n {
        return false;
    }
    at <= s.len() - n
}

// A place before which there is no byte of the set. Less than sixteen bytes at the end of the text are left to the caller.
fn past(s: &[u8], at: usize, x: Set) -> usize
    ensures { Clear x s.now at result }
{
    let mut i = at;
    while has(s, i, 16) {
        let k = part(s, i, x);
        if k < 16 {
            return i + k;
        }
        i += 16;
    }
    i
}

// Whether none of the n bytes from a place on is one of the set. Where n is a constant, the compiler works on whole blocks.
fn is_clear(s: &[u8], at: usize, n: usize, x: Set) -> bool
    requires { at + n ≤ length s.now }
    ensures { result ≡ true → Clear x s.now at (at + n) }
{
    let least = s[at..at + n]
        .iter()
        .fold(u8::MAX, |m, b| x.distance(*b).min(m));
    0 < least
}

// `past`, where the set is far away mostly: by sixty-four bytes, as long as all of them are clear of it. This and `past_short` as one function with
// a const parameter were tried: plain text was formatted at 0.83 of the speed.
fn past_long(s: &[u8], at: usize, x: Set) -> usize
    ensures { Clear x s.now at result }
{
    let mut i = at;
    while has(s, i, 64) {
        if !is_clear(s, i, 64, x) {
            return i;
        }
        i += 64;
    }
    i
}

pub fn past_braces(s: &[u8], at: usize) -> usize
    ensures { Clear braces s.now at result }
{
    past(s, at, BRACES)
}

pub fn past_quotes(s: &[u8], at: usize) -> usize
    ensures { Clear quotes s.now at result }
{
    past(s, at, QUOTES)
}

// Over white space of ASCII. A text where the fourth byte from here is none is not worth a look at a block.
pub fn past_white(s: &[u8], at: usize) -> usize
    ensures { Clear solids s.now at result }
{
    if has(s, at, 16) {
        if s[at + 3] <= 0x20 {
            return past(s, at, SOLIDS);
        }
    }
    at
}

// Whether the sixty-four bytes from a place on are ASCII: a sixth quicker than `is_clear`, by the greatest of them.
fn is_ascii(s: &[u8], at: usize) -> bool
    requires { at + 64 ≤ length s.now }
    ensures { result ≡ true → Clear others s.now at (at + 64) }
{
    let greatest = s[at..at + 64].iter().fold(0u8, |m, b| (*b).max(m));
    greatest < 0x80
}

// Over ASCII. Where the next byte is none, no block is looked at.
pub fn past_ascii(s: &[u8], at: usize) -> usize
    ensures { Clear others s.now at result }
{
    if at < s.len() {
        if 0x80 <= s[at] {
            return at;
        }
    }
    let mut i = at;
    while has(s, i, 64) {
        if !is_ascii(s, i) {
            return past(s, i, OTHERS);
        }
        i += 64;
    }
    i
}

// The first place from a place on where x stands, or the end.
pub fn find(s: &[u8], at: usize, x: u8) -> usize
    ensures { Found x s.now at result }
{
    let only = Interval(x, x);
    let it = Set {
        one: only,
        two: only,
        three: only,
    };
    let near = past(s, past_long(s, at, it), it);
    if s.len() <= near {
        return near;
    }
    match s[near..].iter().position(|b| *b == x) {
        Some(k) => near + k,
        None => s.len(),
    }
}

// `copy` of N bytes. All are read before the first is written, so the compiler moves them at once; without `b` it calls for each move, and text
// is formatted at 0.87 of the speed.
fn move_block<const N: usize>(s: &[u8], from: usize, out: &mut [u8], at: usize)
    requires { (from + N ≤ length s.now) × (at + N ≤ length out.old) }
    ensures { out.new ≡ sets out.old at (part s.now from (from + N)) }
{
    let mut b = [0u8; N];
    b.copy_from_slice(&s[from..from + N]);
    out[at..at + N].copy_from_slice(&b);
}

// `copy` of less than sixteen bytes: two moves that may overlap.
fn copy_short(s: &[u8], from: usize, n: usize, out: &mut [u8], at: usize)
    requires { (n < 16) × (from + n ≤ length s.now) × (at + n ≤ length out.old) }
    ensures { out.new ≡ sets out.old at (part s.now from (from + n)) }
{
    if 8 <= n {
        move_block::<8>(s, from, out, at);
        move_block::<8>(s, from + (n - 8), out, at + (n - 8));
        return;
    }
    if 4 <= n {
        move_block::<4>(s, from, out, at);
        move_block::<4>(s, from + (n - 4), out, at + (n - 4));
        return;
    }
    for i in 0..n {
        out[at + i] = s[from + i];
    }
}

// The n bytes of s from a place on, over those of `out` from another on. The last move may overlap the one before it. One `copy_from_slice` of all
// n bytes was tried: most texts are short, and literals were resolved at 0.83 to 0.94 of the speed.
pub fn copy(s: &[u8], from: usize, n: usize, out: &mut [u8], at: usize)
    requires { (from + n ≤ length s.now) × (at + n ≤ length out.old) }
    ensures { out.new ≡ sets out.old at (part s.now from (from + n)) }
{
    if n < 16 {
        copy_short(s, from, n, out, at);
        return;
    }
    let last = n - 16;
    let mut i = 0;
    while i < last {
        move_block::<16>(s, from + i, out, at + i);
        i += 16;
    }
    move_block::<16>(s, from + last, out, at + last);
}

// 0 where the byte b, behind a, ends a run of plain text: b is one of $ - \ { }, or no printable ASCII, or both are blanks.
fn apart_from_plain(a: u8, b: u8) -> u8
    ensures { 0 < result → (is_simple b ≡ true) × (a ≡ 0x20 → b ≡ 0x20 → ⊥) }
{
    let one = 0x7fu8.saturating_sub(b).min(b.saturating_sub(0x1f));
    let two = (b ^ 0x2d).min(b ^ 0x24);
    let three = ((a ^ 0x20) | (b ^ 0x20)).min(b ^ 0x5c);
    let four = (b ^ 0x7d).min(b ^ 0x7b);
    four.min(three).min(two.min(one))
}

// How many of the sixteen bytes from a place on are plain.
fn plain_part(s: &[u8], at: usize) -> usize
    requires { (0 < at) × (at + 16 ≤ length s.now) }
    ensures { PlainRun s.now at (at + result) × (result ≤ 16) }
{
    let mut m: u8 = 16;
    for k in 0..16u8 {
        let i = at + k as usize;
        m = place(apart_from_plain(s[i - 1], s[i]), k).min(m);
    }
    m as usize
}

// Over plain text from a place on that is not the first. The last sixteen bytes may overlap those before them; less than sixteen are left to the
// caller.
pub fn past_plain(s: &[u8], at: usize) -> usize
    requires { 0 < at }
    ensures { PlainRun s.now at result }
{
    if !has(s, at, 16) {
        return at;
    }
    let last = s.len() - 16;
    let mut i = at;
    while i < last {
        let k = plain_part(s, i);
        if k < 16 {
            return i + k;
        }
        i += 16;
    }
    last + plain_part(s, last)
}

// `past_long` by sixteen bytes, and to the end of the text: the last sixteen may overlap those before them. A text of less than sixteen is left
// to the caller.
fn past_short(s: &[u8], at: usize, x: Set) -> usize
    ensures { Clear x s.now at result }
{
    if !has(s, at, 16) {
        return at;
    }
    let last = s.len() - 16;
    let mut i = at;
    while i < last {
        if !is_clear(s, i, 16, x) {
            return i;
        }
        i += 16;
    }
    if is_clear(s, last, 16, x) {
        return s.len();
    }
    i
}

// A place before which there is no line end: over bytes that are 0x0e at least.
pub fn past_lines(s: &[u8], at: usize) -> usize
    ensures { Clear lines s.now at result }
{
    past_short(s, at, LINES)
}

// A place before which there is no line end and nothing beyond ASCII: over ASCII that is 0x0e at least.
pub fn past_narrow(s: &[u8], at: usize) -> usize
    ensures { Clear breaks s.now at result }
{
    past_short(s, at, BREAKS)
}

// Whether all of a text is ASCII.
pub fn all_ascii(s: &[u8]) -> bool
    ensures { result ≡ true → Clear others s.now 0 (length s.now) }
{
    let n = s.len();
    if n < 16 {
        return is_clear(s, 0, n, OTHERS);
    }
    past_short(s, 0, OTHERS) == n
}
