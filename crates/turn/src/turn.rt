// A turn of content that writes text: a run of characters, hyphens, white space, or what follows a backslash.
ghost use Rattle.std.specs.Prelude.{◌≡◌, true, false, ◌+◌, ◌*◌, ◌≤◌, ◌<◌, length, get_or};
ghost use Rattle.text.specs.Block.{is_simple, PlainRun};
ghost use Rattle.text.specs.Class.{is_whitespace, is_control};
ghost use Rattle.text.specs.Scan.{see, next_of, part, Ahead};
ghost use Rattle.command.specs.Execute.{given, absent};
ghost use Rattle.turn.specs.Content.{is_escape, begins, argument_end, name_end, opens_at, takes_one};
ghost use Rattle.turn.specs.Turns.{WordRun, is_sign, ends_text, Ordinary, Behind, Command, CopiesOne, CopiesAll, Wrote};
ghost use Rattle.turn.specs.Turns.{Grows, Took, SaysText, GrowsText, ReadyText, end_of, EndInside};

use chunk::biblatex;
use command::meaning::Meaning;
use command::tables::Tables;
use command::{execute, meaning, stack};
use row::fault;
use row::fault::{Fault, Reason};
use text::class::Test;
use text::{block, class, scanner};

// What came of a turn: the content has ended; text was written, up to a place of the content and a new end of the text; or a command has an
// argument in braces: what its name means, where the name ends, and where the argument begins and ends.
#[derive(Clone, Copy)]
pub enum Text {
    End,
    Put {
        next: usize,
        len: usize,
    },
    Argument {
        m: Meaning,
        end: usize,
        from: usize,
        to: usize,
    },
}

// A place of the content, and the end of the text there.
#[derive(Clone, Copy)]
pub struct Grown {
    pub at: usize,
    pub len: usize,
}

// The characters that stand for themselves behind a backslash.
fn is_escape(c: u32, verb: bool) -> bool
    ensures { result ≡ is_escape verb c }
{
    (c != 0x5e) & (c != 0x7e) & biblatex::is_escapable(c, verb, true)
}

// Whether a character is white space. Most characters beyond ASCII are settled by their number: none is white space between 0xA0 and 0x1680, nor
// past 0x3000.
fn is_white(c: u32) -> bool
    ensures { result ≡ is_whitespace c }
{
    if ((0xa0 < c) & (c < 0x1680)) | (0x3000 < c) {
        return false;
    }
    class::is_whitespace(c)
}

// The place after a single blank, or after a character of several bytes that is no white space; at anything else, the place itself.
fn past_rare(s: &[u8], at: usize) -> usize
    requires { at < length s.now }
    ensures { CopiesOne s.now at result }
{
    if s[at] == 0x20 {
        let after = scanner::eat_whitespace(s, at);
        if after == at + 1 {
            return after;
        }
        return at;
    }
    if s[at] < 0x80 {
        return at;
    }
    match scanner::peek(s, at) {
        None => at,
        Some((code, next)) => {
            if is_white(code) {
                return at;
            }
            next
        }
    }
}

// The bytes that stand for themselves, whatever follows them, and the blank.
fn is_simple(b: u8) -> bool
    ensures { result ≡ is_simple b }
{
    (0x1f < b) & (b < 0x7f) & (b != 0x24) & (b != 0x2d) & (b != 0x5c) & (b != 0x7b) & (b != 0x7d)
}

// Goes over simple bytes by blocks, unless the first byte is none: there the blocks would not pay.
fn by_blocks(s: &[u8], at: usize) -> usize
    requires { 0 < at }
    ensures { PlainRun s.now at result }
{
    if at < s.len() {
        if is_simple(s[at]) {
            return block::past_plain(s, at);
        }
    }
    at
}

// The place after the simple bytes from a place on, none of them a blank behind a blank. `position` over the bytes would still ask for the place, to
// look at the byte before.
fn past_simple(s: &[u8], at: usize) -> usize
    requires { 0 < at }
    ensures { PlainRun s.now at result }
{
    let mut i = by_blocks(s, at);
    while i < s.len() {
        if !is_simple(s[i]) {
            return i;
        }
        if (s[i - 1] == 0x20) & (s[i] == 0x20) {
            return i;
        }
        i += 1;
    }
    i
}

// The place after the simple bytes from a place on, with single blanks between them: a blank at their end is left to `past_rare`.
fn words(s: &[u8], at: usize) -> usize
    ensures { WordRun s.now at result }
{
    if s.len() <= at {
        return at;
    }
    if !is_simple(s[at]) {
        return at;
    }
    let end = past_simple(s, at + 1);
    if s[end - 1] == 0x20 {
        return end - 1;
    }
    end
}

// The place after the characters from a place on that stand for themselves, and single blanks between them. A turn passes words, and then something
// rarer.
fn run(s: &[u8], at: usize) -> usize
    ensures { CopiesAll s.now at result }
{
    let mut i = at;
    loop {
        let end = words(s, i);
        if s.len() <= end {
            return end;
        }
        i = past_rare(s, end);
        if i <= end {
            return end;
        }
    }
}

// One to three hyphens.
fn hyphens(s: &[u8], at: usize, out: &mut [u8], len: usize) -> Grown
    requires { (at < length s.now) × (get_or s.now at 0 ≡ 0x2D) × (len + 2 * length s.now ≤ length out.old + 2 * at) }
    ensures wrote { Wrote false s.now at len out.old result.at result.len out.new }
    ensures grows { Grows (length s.now) 1 at len result.at result.len }
{
    let one = at + 1;
    let two = scanner::eat_byte(s, one, 0x2d);
    if two == one {
        let l = stack::push(out, len, 0x2d);
        return Grown { at: one, len: l };
    }
    let three = scanner::eat_byte(s, two, 0x2d);
    if three == two {
        let l = stack::put_code(out, len, 0x2013);
        return Grown { at: two, len: l };
    }
    let l = stack::put_code(out, len, 0x2014);
    Grown { at: three, len: l }
}

// White space, which is written as one blank; or any other character, which is copied.
fn other(s: &[u8], verb: bool, at: usize, out: &mut [u8], len: usize) -> Grown
    requires { (at < length s.now) × Ordinary verb (get_or s.now at 0) × (get_or s.now at 0 ≡ 0x5C → ⊥) × (get_or s.now at 0 ≡ 0x2D → verb ≡ true)
        × (len + 2 * length s.now ≤ length out.old + 2 * at) }
    ensures wrote { Wrote verb s.now at len out.old result.at result.len out.new }
    ensures grows { Grows (length s.now) 1 at len result.at result.len }
{
    match scanner::peek(s, at) {
        None => Grown { at, len },
        Some((code, next)) => {
            if class::is_whitespace(code) {
                let l = stack::push(out, len, 0x20);
                let after = scanner::eat_whitespace(s, at);
                return Grown { at: after, len: l };
            }
            let l = stack::copy(s, at, next, out, len);
            Grown { at: next, len: l }
        }
    }
}

// Hyphens, white space, or any other character.
fn one_text(s: &[u8], verb: bool, at: usize, out: &mut [u8], len: usize) -> Grown
    requires { (at < length s.now) × Ordinary verb (get_or s.now at 0) × (get_or s.now at 0 ≡ 0x5C → ⊥) ×
        (len + 2 * length s.now ≤ length out.old + 2 * at) }
    ensures wrote { Wrote verb s.now at len out.old result.at result.len out.new }
    ensures grows { Grows (length s.now) 1 at len result.at result.len }
{
    if (s[at] == 0x2d) & !verb {
        return hyphens(s, at, out, len);
    }
    other(s, verb, at, out, len)
}

// Whether a chunk ends before a byte: a brace, or a dollar sign unless the field is verbatim.
fn is_sign(b: u8, verb: bool) -> bool
    ensures { result ≡ is_sign verb b }
{
    (b == 0x7b) | (b == 0x7d) | ((b == 0x24) & !verb)
}

// Whether a chunk ends before the byte at a place.
pub fn sign_at(s: &[u8], verb: bool, at: usize) -> bool
    ensures { result ≡ is_sign verb (get_or s.now at 0) }
{
    if s.len() <= at {
        return false;
    }
    is_sign(s[at], verb)
}

// Whether text ends before a byte: a backslash, or one before which a chunk ends.
fn ends_text(b: u8, verb: bool) -> bool
    ensures { result ≡ ends_text verb b }
{
    (b == 0x5c) | is_sign(b, verb)
}

// Text from a place on, up to the end, a backslash, a brace, or a dollar sign unless the field is verbatim. A turn copies a run, and then passes what
// ended it.
pub fn texts(s: &[u8], verb: bool, at: usize, out: &mut [u8], len: usize) -> Grown
    requires { (at ≤ length s.now) × (len + 2 * length s.now ≤ length out.old + 2 * at) }
    ensures wrote { Wrote verb s.now at len out.old result.at result.len out.new }
    ensures grows { Grows (length s.now) 0 at len result.at result.len }
    ensures at_value { result.at < length s.now → ends_text verb (get_or s.now result.at 0) ≡ true }
{
    let mut i = at;
    let mut l = len;
    loop {
        let j = run(s, i);
        let k = stack::copy(s, i, j, out, l);
        if s.len() <= j {
            return Grown { at: j, len: k };
        }
        if ends_text(s[j], verb) {
            return Grown { at: j, len: k };
        }
        let t = one_text(s, verb, j, out, k);
        i = t.at;
        l = t.len;
    }
}

// A backslash before white space. Both are written, and then one blank for the white space, which the backslash does not eat: `\ ` gives two
// blanks.
fn back_blank(
    s: &[u8],
    at: usize,
    code: u32,
    next: usize,
    out: &mut [u8],
    len: usize,
) -> Result<Text, Fault>
    requires { Behind s.now at code next × (is_whitespace code ≡ true) × (len + 2 * length s.now ≤ length out.old + 2 * at) }
    ensures says_text { SaysText false s.now at len out.old result out.new }
    ensures grows_text { GrowsText (length s.now) at len result }
{
    let k = stack::copy(s, at, next, out, len);
    let l = stack::push(out, k, 0x20);
    let after = scanner::eat_whitespace(s, at + 1);
    Ok(Text::Put {
        next: after,
        len: l,
    })
}

// A backslash before a control character. Both are written, and then the character again, which the backslash does not eat.
fn back_control(
    s: &[u8],
    at: usize,
    code: u32,
    next: usize,
    out: &mut [u8],
    len: usize,
) -> Result<Text, Fault>
    requires { Behind s.now at code next × (is_whitespace code ≡ false) × (is_control code ≡ true) ×
        (len + 2 * length s.now ≤ length out.old + 2 * at) }
    ensures says_text { SaysText false s.now at len out.old result out.new }
    ensures grows_text { GrowsText (length s.now) at len result }
{
    let k = stack::copy(s, at, next, out, len);
    let l = stack::copy(s, at + 1, next, out, k);
    Ok(Text::Put { next, len: l })
}

// The end of an argument that begins at a place: the brace that closes it, with no regard for backslashes. A turn goes on from the brace that was
// found.
fn argument_end(s: &[u8], at: usize) -> Result<usize, Fault>
    requires { at ≤ length s.now }
    ensures value { result ≡ end_of (argument_end s.now at) }
    ensures end_inside { EndInside (length s.now) at result }
{
    let mut depth: usize = 0;
    let mut i = at;
    loop {
        let j = scanner::eat_until(s, i, Test::Brace);
        if s.len() <= j {
            return Err(fault::fault_at(Reason::UnexpectedEof, j));
        }
        if s[j] == 0x7b {
            depth += 1;
            i = j + 1;
        } else if depth == 0 {
            return Ok(j);
        } else {
            depth -= 1;
            i = j + 1;
        }
    }
}

// The place after a command's name, whose first character ends at a place.
fn name_end(s: &[u8], code: u32, next: usize) -> usize
    ensures { (result ≡ name_end code next s.now) × Ahead s.now next result }
{
    if execute::is_single_char_func(code, false) {
        return next;
    }
    scanner::eat_id(s, next)
}

// Whether an opening brace stands at a place.
fn opens_at(s: &[u8], at: usize) -> bool
    ensures { result ≡ opens_at (see s.now at) }
{
    match scanner::peek(s, at) {
        None => false,
        Some((code, _)) => code == 0x7b,
    }
}

// Whether a command takes the one character behind it.
fn takes_one(s: &[u8], code: u32, next: usize, end: usize, after: usize) -> bool
    ensures { result ≡ takes_one code next end after s.now }
{
    let opens = opens_at(s, after);
    let single = execute::is_single_char_func(code, !(end == after));
    !opens & (next == end) & (code != 0x2d) & single
}

// A command that takes the one character at `after` as its argument; at the end of the content, an empty argument.
fn one(
    s: &[u8],
    at: usize,
    end: usize,
    after: usize,
    out: &mut [u8],
    len: usize,
    tables: Tables,
) -> Result<Text, Fault>
    requires { Command s.now at end after × ReadyText s.now at len out.old }
    ensures took { Took s.now at end (given (part s.now after (next_of after (see s.now after))))
        (next_of after (see s.now after)) len out.old result out.new }
    ensures grows_text { GrowsText (length s.now) at len result }
{
    let to = scanner::eat(s, after);
    let m = meaning::meaning_of(tables.names, s, at + 1, end);
    let from = execute::execute_before(m, s, at + 1, end, out, len);
    let e = stack::copy(s, after, to, out, from);
    let l = execute::execute_command(tables.marks, m, s, at + 1, end, out, len, from, e);
    Ok(Text::Put { next: to, len: l })
}

// A command without an argument.
fn bare(
    s: &[u8],
    at: usize,
    end: usize,
    after: usize,
    out: &mut [u8],
    len: usize,
    tables: Tables,
) -> Result<Text, Fault>
    requires { Command s.now at end after × ReadyText s.now at len out.old }
    ensures took { Took s.now at end absent after len out.old result out.new }
    ensures grows_text { GrowsText (length s.now) at len result }
{
    let m = meaning::meaning_of(tables.names, s, at + 1, end);
    let l = execute::execute_bare(m, s, at + 1, end, out, len);
    Ok(Text::Put {
        next: after,
        len: l,
    })
}

// A command, whose name begins with the character behind the backslash.
fn command(
    s: &[u8],
    at: usize,
    code: u32,
    next: usize,
    out: &mut [u8],
    len: usize,
    tables: Tables,
) -> Result<Text, Fault>
    requires { Behind s.now at code next × (begins code ≡ true) × ReadyText s.now at len out.old }
    ensures says_text { SaysText false s.now at len out.old result out.new }
    ensures grows_text { GrowsText (length s.now) at len result }
{
    let end = name_end(s, code, next);
    let after = scanner::eat_whitespace(s, end);
    if takes_one(s, code, next, end, after) {
        return one(s, at, end, after, out, len, tables);
    }
    if !((end == after) & opens_at(s, after)) {
        return bare(s, at, end, after, out, len, tables);
    }
    let m = meaning::meaning_of(tables.names, s, at + 1, end);
    let from = after + 1;
    let to = argument_end(s, from)?;
    Ok(Text::Argument { m, end, from, to })
}

// A backslash, and what follows it.
fn backslash(
    s: &[u8],
    verb: bool,
    at: usize,
    out: &mut [u8],
    len: usize,
    tables: Tables,
) -> Result<Text, Fault>
    requires { (at < length s.now) × (get_or s.now at 0 ≡ 0x5C) × ReadyText s.now at len out.old }
    ensures says_text { SaysText verb s.now at len out.old result out.new }
    ensures grows_text { GrowsText (length s.now) at len result }
{
    match scanner::peek(s, at + 1) {
        None => {
            if verb {
                let l = stack::push(out, len, 0x5c);
                return Ok(Text::Put {
                    next: at + 1,
                    len: l,
                });
            }
            Err(fault::fault_at(Reason::UnexpectedEof, at + 1))
        }
        Some((code, next)) => {
            if is_escape(code, verb) {
                let l = stack::copy(s, at + 1, next, out, len);
                return Ok(Text::Put { next, len: l });
            }
            if verb {
                let l = stack::push(out, len, 0x5c);
                return Ok(Text::Put {
                    next: at + 1,
                    len: l,
                });
            }
            if class::is_whitespace(code) {
                return back_blank(s, at, code, next, out, len);
            }
            if class::is_control(code) {
                return back_control(s, at, code, next, out, len);
            }
            command(s, at, code, next, out, len, tables)
        }
    }
}

// One turn or several that only write text, from a place at which no brace stands, and no dollar sign unless the field is verbatim.
pub fn text_at(
    s: &[u8],
    verb: bool,
    at: usize,
    out: &mut [u8],
    len: usize,
    tables: Tables,
) -> Result<Text, Fault>
    requires { Ordinary verb (get_or s.now at 0) × ReadyText s.now at len out.old }
    ensures says_text { SaysText verb s.now at len out.old result out.new }
    ensures grows_text { GrowsText (length s.now) at len result }
{
    if s.len() <= at {
        return Ok(Text::End);
    }
    if s[at] == 0x5c {
        let text = backslash(s, verb, at, out, len, tables)?;
        let Text::Put { next, len: l } = text else {
            return Ok(text);
        };
        let t = texts(s, verb, next, out, l);
        return Ok(Text::Put {
            next: t.at,
            len: t.len,
        });
    }
    let t = texts(s, verb, at, out, len);
    Ok(Text::Put {
        next: t.at,
        len: t.len,
    })
}
