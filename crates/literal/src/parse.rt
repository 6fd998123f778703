// A literal, after `ContentParser::parse`: content and a command's argument, which call each other with the depth falling.
ghost use Rattle.std.specs.Prelude.{◌≡◌, false, ◌+◌, ◌≤◌, ◌<◌, length, take};
ghost use Rattle.text.specs.Scan.{part};
ghost use Rattle.row.specs.Limits.{most_bytes, least_scratch};
ghost use Rattle.raw.specs.Strict.{fault_up};
ghost use Rattle.chunk.specs.declared.form.Kind.TheVariants.{Normal};
ghost use Rattle.command.specs.Commands.{meaning_of};
ghost use Rattle.turn.specs.Content.{inside};
ghost use Rattle.literal.specs.Literal.{resolve_literal};
ghost use Rattle.literal.specs.Rows.{most_number, most_rows, Pushes};
ghost use Rattle.literal.specs.Inner.{from, ReadyContent, in_argument, Fits, LastChunkDone, SaysContent, SaysArgument, AheadMade};
ghost use Rattle.literal.specs.Inner.{ReadTo, SaysBegun, ReadyLiteral, SaysParsed, GrowsParsed};
ghost use Rattle.turn.specs.Turns.{CommandSpans};

use crate::making::{Making, Place};
use crate::rows::Rows;
use crate::{content, making, rows};
use chunk::form::Kind;
use command::meaning::Meaning;
use command::tables::Tables;
use row::fault::{Fault, Reason};
use row::limits::{MOST_ARGUMENTS, MOST_LITERAL};
use turn::turn as turns;
use turn::turn::Text;

// The text that a literal begins with: all of it, so that the literal is one Normal chunk of so many bytes; or the text up to a place of the
// content, and how many bytes it has.
#[derive(Clone, Copy)]
pub enum Begun {
    Whole(usize),
    Part { at: usize, len: usize },
}

// The content of s from a state on, with `depth` arguments left to open. A turn says where the next one begins.
#[cycle(argument_content)]
fn content(
    s: &[u8],
    verb: bool,
    depth: usize,
    first: Making,
    place: Place,
    out: &mut [u8],
    numbers: &mut [u32],
    tables: Tables,
) -> Result<Making, Fault>
    requires { ReadyContent s.now place first out.old }
    ensures says_content { SaysContent place (from (inside depth) verb s.now first) first out.old numbers.old result
        out.new numbers.new }
    ensures ahead_made { AheadMade (length s.now) 0 first result }
{
    let mut st = first;
    loop {
        let at = st.at;
        if turns::sign_at(s, verb, at) {
            st = content::sign(s, verb, st, place, out, numbers)?;
        } else {
            match turns::text_at(s, verb, at, out, st.len, tables)? {
                Text::End => {
                    return Ok(st);
                }
                Text::Put { next, len } => {
                    st = content::further(st, next, len);
                }
                Text::Argument { m, end, from, to } => {
                    st = argument(s, m, end, from, to, depth, st, out, tables)?;
                }
            }
        }
    }
}

// A command with an argument in braces, whose content stands from `from` to `to`. Its text is put behind its parent's.
#[cycle(argument_content)]
fn argument(
    s: &[u8],
    m: Meaning,
    end: usize,
    from: usize,
    to: usize,
    depth: usize,
    st: Making,
    out: &mut [u8],
    tables: Tables,
) -> Result<Making, Fault>
    requires ready_content { ReadyContent s.now in_argument st out.old }
    requires m_value { (m ≡ meaning_of (part s.now (st.at + 1) end)) × CommandSpans (length s.now) st.at end from to }
    ensures says_argument { SaysArgument (inside depth (take to s.now) from) (part s.now (st.at + 1) end) from to st
        out.old result out.new }
    ensures ahead_made { AheadMade (length s.now) 1 st result }
{
    if depth == 0 {
        return Err(Fault {
            reason: Reason::TooDeep,
            start: from - 1,
            end: from,
        });
    }
    let i = content::begin(s, m, end, from, st, out);
    let lead = i.len;
    let mut none = [0u32; 0];
    let place = Place {
        argument: true,
        base: 0,
        text: 0,
    };
    let t = content(&s[..to], false, depth - 1, i, place, out, &mut none, tables)?;
    Ok(content::finish(s, m, end, to, lead, st, t, out, tables.marks))
}

// A refusal inside a literal, whose places in the literal become places in the file.
fn up(f: Fault, base: usize) -> Fault
    requires { (f.start ≤ most_bytes) × (f.end ≤ most_bytes) × (base ≤ most_bytes) }
    ensures { result ≡ fault_up base f }
{
    let reason = f.reason;
    Fault {
        reason,
        start: f.start + base,
        end: f.end + base,
    }
}

// The end of a literal's content: the last chunk is done too if it has text, or if there is no other. `out`, where the text stands, is there for
// the contract.
fn close(t: Making, place: Place, out: &[u8], numbers: &mut [u32]) -> Rows
    requires { Fits place t (length out.now) × (place.base + t.at ≤ most_number) × (place.argument ≡ false) }
    ensures { LastChunkDone place t out.now numbers.old result out.now numbers.new }
{
    let have = t.rows;
    if (t.from < t.len) | !t.pushed {
        let kind = making::default_chunk(t.braces);
        let from = making::narrow(place.text + t.from);
        let to = making::narrow(place.text + t.len);
        let first = making::narrow(place.base + t.start);
        let last = making::narrow(place.base + t.at);
        return rows::push(numbers, have, kind, from, to, first, last);
    }
    have
}

// The row of a literal that is one Normal chunk, from `base` to `end` in its file, behind the other rows. Its text has `len` bytes, and the text
// of the value before it `before`.
pub fn whole(
    base: usize,
    end: usize,
    before: usize,
    len: usize,
    have: Rows,
    numbers: &mut [u32],
) -> Rows
    requires { (base ≤ most_bytes) × (end ≤ most_bytes) × (before ≤ most_number) × (len ≤ least_scratch) × (have.n ≤ most_rows) }
    ensures pushes { Pushes Normal before (before + len) base end have numbers.old result numbers.new }
    ensures n_bound { result.n ≤ have.n + 1 }
{
    let from = making::narrow(before);
    let to = making::narrow(before + len);
    let first = making::narrow(base);
    let last = making::narrow(end);
    rows::push(numbers, have, Kind::Normal, from, to, first, last)
}

// Writes the text that a literal begins with to `out`. Of a literal that is too long nothing is written.
pub fn begin(s: &[u8], verb: bool, out: &mut [u8]) -> Begun
    requires { least_scratch ≤ length out.old }
    ensures { SaysBegun verb s.now result out.new }
{
    if MOST_LITERAL < s.len() {
        return Begun::Part { at: 0, len: 0 };
    }
    let t = turns::texts(s, verb, 0, out, 0);
    if s.len() <= t.at {
        return Begun::Whole(t.len);
    }
    Begun::Part {
        at: t.at,
        len: t.len,
    }
}

// `parse` of a literal whose content is read up to `at`: it has only written text, which has `len` bytes and stands in `out`.
pub fn rest(
    s: &[u8],
    base: usize,
    verb: bool,
    before: usize,
    have: Rows,
    at: usize,
    len: usize,
    out: &mut [u8],
    numbers: &mut [u32],
    tables: Tables,
) -> Result<(Rows, usize), Fault>
    requires { ReadyLiteral s.now base before have out.old × ReadTo verb s.now at len out.old }
    ensures says_parsed { SaysParsed (resolve_literal verb s.now base) before have numbers.old result out.new
        numbers.new }
    ensures grows_parsed { GrowsParsed have result }
{
    if MOST_LITERAL < s.len() {
        return Err(Fault {
            reason: Reason::TooLong,
            start: base,
            end: base + s.len(),
        });
    }
    let first = Making {
        at,
        braces: 0,
        pushed: false,
        start: 0,
        from: 0,
        len,
        white: false,
        rows: have,
    };
    let place = Place {
        argument: false,
        base,
        text: before,
    };
    match content(s, verb, MOST_ARGUMENTS, first, place, out, numbers, tables) {
        Err(f) => Err(up(f, base)),
        Ok(t) => {
            let len = t.len;
            let rows = close(t, place, out, numbers);
            Ok((rows, len))
        }
    }
}

// A literal s that stands at `base` in its file. The value's text before it has `before` bytes, and its rows so far are `have`. The literal's text
// is written to `out`, and its rows behind the others.
pub fn parse(
    s: &[u8],
    base: usize,
    verb: bool,
    before: usize,
    have: Rows,
    out: &mut [u8],
    numbers: &mut [u32],
    tables: Tables,
) -> Result<(Rows, usize), Fault>
    requires { ReadyLiteral s.now base before have out.old }
    ensures says_parsed { SaysParsed (resolve_literal verb s.now base) before have numbers.old result out.new
        numbers.new }
    ensures grows_parsed { GrowsParsed have result }
{
    match begin(s, verb, out) {
        Begun::Whole(len) => {
            let rows = whole(base, base + s.len(), before, len, have, numbers);
            Ok((rows, len))
        }
        Begun::Part { at, len } => rest(s, base, verb, before, have, at, len, out, numbers, tables),
    }
}
