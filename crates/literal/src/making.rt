// Content under construction: the text so far, and the chunks that are done.
ghost use Rattle.std.specs.Prelude.{◌≡◌, ◌+◌, ◌≤◌, length};
ghost use Rattle.command.specs.Stack.{default_chunk as kind_at};
ghost use Rattle.literal.specs.Rows.{most_number};
ghost use Rattle.literal.specs.Inner.{ChunkDone, MathDone, Fits};

use crate::rows;
use crate::rows::Rows;
use chunk::form::Kind;
use command::{settle, stack};

// The bools of `Making` and `Place` stand last: between the numbers they cost a third of the time.
//
// A place in the content and the braces open there; whether a chunk is done; where the chunk under construction starts in the content, and
// where its text starts and ends; in an argument, whether white space came last; and the rows.
#[derive(Clone, Copy)]
pub struct Making {
    pub at: usize,
    pub braces: usize,
    pub start: usize,
    pub from: usize,
    pub len: usize,
    pub rows: Rows,
    pub pushed: bool,
    pub white: bool,
}

// What the content belongs to: an argument, whose chunks are formatted as they end; or a literal, whose chunks become rows, with its place in
// the file and the place of its text among all the text of the value.
#[derive(Clone, Copy)]
pub struct Place {
    pub base: usize,
    pub text: usize,
    pub argument: bool,
}

pub fn default_chunk(braces: usize) -> Kind
    ensures { result ≡ kind_at braces }
{
    if braces == 0 {
        return Kind::Normal;
    }
    Kind::Verbatim
}

// A number as a row holds it. Of one that 32 bits do not hold nothing is said: rows are written before it is known how long the text becomes.
pub fn narrow(n: usize) -> u32
    ensures { n ≤ most_number → result ≡ n }
{
    (n % 4294967296) as u32
}

// Ends the chunk under construction at `end`, and begins one at `start` with `braces` braces open. In an argument the text of the chunk is
// formatted, in a literal the chunk becomes a row.
pub fn turnaround(
    st: Making,
    place: Place,
    end: usize,
    braces: usize,
    start: usize,
    out: &mut [u8],
    numbers: &mut [u32],
) -> Making
    requires { Fits place st (length out.old) × (place.base + end ≤ most_number) }
    ensures { ChunkDone place st end braces start out.old numbers.old result out.new numbers.new }
{
    if place.argument {
        let w = settle::settle(out, st.braces, st.from, st.len, st.white);
        return Making {
            at: start,
            braces,
            pushed: true,
            start,
            from: w.at,
            len: w.at,
            white: w.white,
            ..st
        };
    }
    let kind = default_chunk(st.braces);
    let from = narrow(place.text + st.from);
    let to = narrow(place.text + st.len);
    let first = narrow(place.base + st.start);
    let last = narrow(place.base + end);
    let more = rows::push(numbers, st.rows, kind, from, to, first, last);
    Making {
        at: start,
        braces,
        pushed: true,
        start,
        from: st.len,
        rows: more,
        ..st
    }
}

// A chunk of math, whose text stands in the content from one place to another. The chunk before it is done.
pub fn put_math(
    s: &[u8],
    from: usize,
    to: usize,
    st: Making,
    place: Place,
    out: &mut [u8],
    numbers: &mut [u32],
) -> Making
    requires from_le_to { (from ≤ to) × (to ≤ length s.now) × (st.len + to + 2 ≤ length out.old + from) × (st.from ≡ st.len) }
    requires fits { Fits place st (length out.old) × (place.base + to ≤ most_number) }
    ensures { MathDone s.now from to place st out.old numbers.old result out.new numbers.new }
{
    if place.argument {
        let k = stack::push(out, st.len, 0x24);
        let l = stack::copy(s, from, to, out, k);
        let e = stack::push(out, l, 0x24);
        return Making {
            pushed: true,
            from: e,
            len: e,
            ..st
        };
    }
    let l = stack::copy(s, from, to, out, st.len);
    let begins = narrow(place.text + st.len);
    let ends = narrow(place.text + l);
    let first = narrow(place.base + from);
    let last = narrow(place.base + to);
    let more = rows::push(numbers, st.rows, Kind::Math, begins, ends, first, last);
    Making {
        pushed: true,
        from: l,
        len: l,
        rows: more,
        ..st
    }
}
