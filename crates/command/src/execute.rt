// What a command writes, after `execute_command` and `last_char_combine` of resolve.rs. An argument's text stands behind what the command
// writes before it (`execute_before`), so that most commands leave it where it is.
ghost use Rattle.std.specs.Prelude.{◌≡◌, true, ◌+◌, ◌≤◌, ◌<◌, max, length};
ghost use Rattle.text.specs.Scan.{part};
ghost use Rattle.text.specs.Utf8.{is_scalar};
ghost use Rattle.compose.specs.Composites.{composites};
ghost use Rattle.compose.specs.Lookup.{numbers};
ghost use Rattle.command.specs.Stack.{Lays};
ghost use Rattle.command.specs.Commands.{is_single_char_func};
ghost use Rattle.command.specs.Execute.{dotted as dotted_of, bare as bare_of, last_char_combine, given, absent, leading, Sane, executed};

use crate::meaning::Meaning;
use crate::stack;
use chunk::ending;

// The characters that are a command's whole name.
pub fn is_single_char_func(c: u32, ws: bool) -> bool
    ensures { result ≡ is_single_char_func c ws }
{
    (c == 0x22)
        | (c == 0xb4)
        | (c == 0x60)
        | (c == 0x27)
        | (c == 0x5e)
        | (c == 0x7e)
        | (c == 0x3d)
        | (c == 0x2e)
        | (c == 0x5c)
        | (c == 0x2d)
        | (ws
            & ((c == 0x62)
                | (c == 0x63)
                | (c == 0x64)
                | (c == 0x48)
                | (c == 0x6b)
                | (c == 0x72)
                | (c == 0x75)
                | (c == 0x76)))
}

fn dotted(c: u32) -> u32
    ensures { result ≡ dotted_of c }
{
    match c {
        0x131 => 0x69,
        0x237 => 0x6a,
        _ => c,
    }
}

fn bare(mark: u32) -> u32
    ensures { result ≡ bare_of mark }
{
    match mark {
        0x302 => 0x5e,
        0x303 => 0x7e,
        _ => mark,
    }
}

// Puts a mark onto the last character of the argument that stands from `from` to `to`. The text grows by two bytes at most: a mark has two, and
// a composed character is at most two longer than its letter.
fn last_char_combine(marks: &[u32], out: &mut [u8], from: usize, to: usize, mark: u32) -> usize
    requires { (marks.now ≡ numbers composites) × (from ≤ to) × (to + 2 ≤ length out.old) × (is_scalar mark ≡ true) × (mark ≤ 0x7FF) }
    ensures lays { Lays from (last_char_combine (given (part out.old from to)) mark) out.old result out.new }
    ensures upper_bound { result ≤ to + 2 }
{
    if to <= from {
        let b = bare(mark);
        return stack::put_code(out, from, b);
    }
    let at = ending::last_at(out, from, to);
    let c = ending::code_at(out, at, to);
    let d = dotted(c);
    match compose::find(marks, d, mark) {
        Some(x) => stack::put_code(out, at, x),
        None => {
            if d == c {
                return stack::put_code(out, to, mark);
            }
            let l = stack::put_code(out, at, d);
            stack::put_code(out, l, mark)
        }
    }
}

// What a command writes before its argument. Here and below, a command's name is lent as a text and two places, and not as a slice: `literal` and
// `turn` call these functions so.
pub fn execute_before(m: Meaning, s: &[u8], a: usize, e: usize, out: &mut [u8], at: usize) -> usize
    requires { (a < e) × (e ≤ length s.now) × (at + e + 2 ≤ length out.old + a) }
    ensures lays { Lays at (leading (part s.now a e) m) out.old result out.new }
    ensures a_bound { result + a ≤ at + e + 2 }
{
    match m {
        Meaning::Copyright => stack::put_code(out, at, 0xa9),
        Meaning::Unknown => {
            let l = stack::push(out, at, 0x5c);
            let k = stack::copy(s, a, e, out, l);
            stack::push(out, k, 0x7b)
        }
        Meaning::Itself => at,
        Meaning::Letter(_) => at,
        Meaning::Accent(_) => at,
        Meaning::Slash => at,
        Meaning::Hyphenation => at,
    }
}

// A command with an argument. Its name stands in s from a to e, what it writes before the argument from `at` to `from`, and the argument's text
// from there to `to`. It needs a free byte behind the argument, or two where it writes nothing before it; and from `at` on, room for three bytes
// and for its name.
pub fn execute_command(
    marks: &[u32],
    m: Meaning,
    s: &[u8],
    a: usize,
    e: usize,
    out: &mut [u8],
    at: usize,
    from: usize,
    to: usize,
) -> usize
    requires marks_value { (marks.now ≡ numbers composites) × Sane m × (a ≤ e) × (e ≤ length s.now) × (at + e ≤ length out.old + a) }
    requires at_le_from { (at ≤ from) × (from ≤ to) × (to < length out.old) × (at + to + 2 ≤ length out.old + from) × (at + 3 ≤ length out.old) ×
        (part out.old at from ≡ leading (part s.now a e) m) }
    ensures lays { Lays at (executed (part s.now a e) (given (part out.old from to)) m) out.old result out.new }
    ensures a_bound { result + from + a ≤ max (max (to + 1 + from + a) (at + 3 + e + from)) (at + to + 2 + a) }
{
    match m {
        Meaning::Itself => stack::copy(s, a, e, out, at),
        Meaning::Letter(c) => stack::put_code(out, at, c),
        Meaning::Accent(mark) => last_char_combine(marks, out, from, to, mark),
        Meaning::Slash => last_char_combine(marks, out, from, to, 0x338),
        Meaning::Copyright => to,
        Meaning::Hyphenation => at,
        Meaning::Unknown => stack::push(out, to, 125),
    }
}

// A command without an argument.
pub fn execute_bare(m: Meaning, s: &[u8], a: usize, e: usize, out: &mut [u8], at: usize) -> usize
    requires { Sane m × (a ≤ e) × (e ≤ length s.now) × (at + e + 3 ≤ length out.old + a) }
    ensures lays { Lays at (executed (part s.now a e) absent m) out.old result out.new }
    ensures a_bound { result + a ≤ at + e + 3 }
{
    match m {
        Meaning::Itself => stack::copy(s, a, e, out, at),
        Meaning::Letter(c) => stack::put_code(out, at, c),
        Meaning::Accent(mark) => stack::put_code(out, at, mark),
        Meaning::Slash => stack::put_code(out, at, 0xf8),
        Meaning::Copyright => stack::put_code(out, at, 0xa9),
        Meaning::Hyphenation => at,
        Meaning::Unknown => {
            let l = stack::push(out, at, 92);
            let k = stack::copy(s, a, e, out, l);
            stack::push(out, k, 32)
        }
    }
}
