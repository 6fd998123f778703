// An argument's text formatted as `format_verbatim` does, in place: a chunk of it never gets longer, so its text is moved down over itself.
ghost use Rattle.std.specs.Prelude.{◌≡◌, [], ◌+◌, ◌≤◌, length, drop};
ghost use Rattle.text.specs.Scan.{part};
ghost use Rattle.chunk.specs.Format.{lines as lines_of, format_one};
ghost use Rattle.command.specs.Stack.{Lays, default_chunk};

use chunk::ending;
use chunk::format::Formatted;

// Moves the bytes from one place to another down to a third. Most moves are of a few bytes: with `copy_within` in the loop's place, 0.93 of the
// speed is left on `\emph{a}` over and over.
fn shift(t: &mut [u8], from: usize, to: usize, at: usize) -> usize
    requires { (at ≤ from) × (from ≤ to) × (to ≤ length t.old) }
    ensures lays { Lays at (part t.old from to) t.old result t.new }
    ensures t_unchanged { drop to t.new ≡ drop to t.old }
{
    if at == from {
        return to;
    }
    let n = to - from;
    for k in 0..n {
        t[at + k] = t[from + k];
    }
    at + n
}

// A Normal text, run by run between its line ends.
fn lines(t: &mut [u8], from: usize, to: usize, white: bool) -> Formatted
    requires { (from ≤ to) × (to ≤ length t.old) }
    ensures lays { Lays from (lines_of white [] (part t.old from to)).text t.old result.at t.new }
    ensures white_value { (result.white ≡ (lines_of white [] (part t.old from to)).white) × (result.at ≤ to) }
{
    let mut w = white;
    let mut i = from;
    let mut j = from;
    // No `for`: a turn goes on by a run of any length.
    while i < to {
        let n = ending::line_end(t, i, to);
        if i < n {
            w = ending::ends_white(t, i, n);
            j = shift(t, i, n, j);
            i = n;
        } else if w {
            i += 1;
        } else {
            t[j] = 32;
            j += 1;
            w = true;
            i += 1;
        }
    }
    Formatted { at: j, white: w }
}

// Formats a chunk of an argument. Its text stands from `from` to `to`, and `braces` is the number of braces that are open around it.
pub fn settle(t: &mut [u8], braces: usize, from: usize, to: usize, white: bool) -> Formatted
    requires { (from ≤ to) × (to ≤ length t.old) }
    ensures lays { Lays from (format_one white (default_chunk braces) (part t.old from to)).text t.old result.at t.new }
    ensures white_value { (result.white ≡ (format_one white (default_chunk braces) (part t.old from to)).white) × (result.at ≤ to) }
{
    if braces == 0 {
        return lines(t, from, to, white);
    }
    let w = ending::ends_white(t, from, to);
    Formatted { at: to, white: w }
}
