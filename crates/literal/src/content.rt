// The turns of content that end a chunk, and how a command's argument begins and ends.
ghost use Rattle.std.specs.Prelude.{◌≡◌, true, false, ◌+◌, ◌*◌, ◌≤◌, ◌<◌, length, get_or};
ghost use Rattle.text.specs.Scan.{part};
ghost use Rattle.compose.specs.Composites.{composites};
ghost use Rattle.compose.specs.Lookup.{numbers};
ghost use Rattle.command.specs.Commands.{meaning_of};
ghost use Rattle.command.specs.Execute.{leading};
ghost use Rattle.turn.specs.Turns.{is_sign};
ghost use Rattle.literal.specs.Inner.{Further, ReadyContent, SignEnds, SaysSign, AheadMade, ArgumentBegun, ArgumentFinished, Closes};

use crate::making;
use crate::making::{Making, Place};
use crate::rows::Rows;
use command::meaning::Meaning;
use command::{execute, settle};
use row::fault;
use row::fault::{Fault, Reason};
use text::class::Test;
use text::scanner;

// The state at another place, with another end of the text.
pub fn further(st: Making, at: usize, len: usize) -> Making
    ensures { Further st at len result }
{
    Making { at, len, ..st }
}

// Where the brace at a place ends, or the formula, which goes on to the next dollar sign: the place of its last byte, and how many braces are
// open behind it. A closing brace is refused where no brace is open.
fn sign_end(s: &[u8], verb: bool, at: usize, braces: usize) -> Result<(usize, usize), Fault>
    requires { (is_sign verb (get_or s.now at 0) ≡ true) × (at < length s.now) × (braces ≤ at) }
    ensures { SignEnds verb s.now at braces result }
{
    let b = s[at];
    if b == 0x7b {
        return Ok((at, braces + 1));
    }
    if b == 0x24 {
        let to = scanner::eat_until(s, at + 1, Test::Dollar);
        if s.len() <= to {
            return Err(fault::fault_at(Reason::UnexpectedEof, to));
        }
        return Ok((to, braces));
    }
    if braces == 0 {
        return Err(Fault {
            reason: Reason::UnexpectedClosingBrace,
            start: at,
            end: at + 1,
        });
    }
    Ok((at, braces - 1))
}

// A brace or a dollar sign: the chunk before it is done. An opening brace begins a Verbatim one, and a formula is a chunk of math.
pub fn sign(
    s: &[u8],
    verb: bool,
    st: Making,
    place: Place,
    out: &mut [u8],
    numbers: &mut [u32],
) -> Result<Making, Fault>
    requires { ReadyContent s.now place st out.old × (is_sign verb (get_or s.now st.at 0) ≡ true) × (st.at < length s.now) }
    ensures says_sign { SaysSign place verb s.now st out.old numbers.old result out.new numbers.new }
    ensures ahead_made { AheadMade (length s.now) 1 st result }
{
    let at = st.at;
    let (to, braces) = sign_end(s, verb, at, st.braces)?;
    let t = making::turnaround(st, place, at, braces, to + 1, out, numbers);
    if s[at] == 0x24 {
        return Ok(making::put_math(s, at + 1, to, t, place, out, numbers));
    }
    Ok(t)
}

// Writes what a command puts before its argument, and gives the state with which the argument's content begins.
pub fn begin(s: &[u8], m: Meaning, end: usize, from: usize, st: Making, out: &mut [u8]) -> Making
    requires { (st.at + 2 ≤ end) × (end + 1 ≡ from) × (from ≤ length s.now) × (st.len + 2 * length s.now ≤ length out.old + 2 * st.at) }
    ensures argument_begun { ArgumentBegun (part s.now (st.at + 1) end) m from st out.old result out.new }
    ensures at_bound { (result.len + (st.at + 1) ≤ st.len + end + 2) × (result.rows.n ≡ 0) }
{
    let at = st.at;
    let len = st.len;
    let lead = execute::execute_before(m, s, at + 1, end, out, len);
    let rows = Rows {
        n: 0,
        last: 3,
        from: 0,
        start: 0,
    };
    Making {
        at: from,
        braces: 0,
        pushed: false,
        start: from,
        from: lead,
        len: lead,
        white: false,
        rows,
    }
}

// Ends a command whose argument's content has been read. What the command wrote before the argument ends at `lead`. The answer is the state behind
// the closing brace.
pub fn finish(
    s: &[u8],
    m: Meaning,
    end: usize,
    to: usize,
    lead: usize,
    st: Making,
    t: Making,
    out: &mut [u8],
    marks: &[u32],
) -> Making
    requires marks_value { (marks.now ≡ numbers composites) × (m ≡ meaning_of (part s.now (st.at + 1) end)) }
    requires closes { Closes s.now end to lead st t out.old × (part out.old st.len lead ≡ leading (part s.now (st.at + 1) end) m) }
    ensures argument_finished { ArgumentFinished (part s.now (st.at + 1) end) m (end + 1) to st t out.old result out.new }
    ensures at_value { (result.at ≡ to + 1) × (result.len + 2 * st.at ≤ st.len + 2 * (to + 1)) }
{
    let at = st.at;
    let len = st.len;
    let w = settle::settle(out, t.braces, t.from, t.len, t.white);
    let l = execute::execute_command(marks, m, s, at + 1, end, out, len, lead, w.at);
    further(st, to + 1, l)
}
