// Runs the published cases of UTF-8 and of the character classes over `text`, and prints what comes out. `stdout` says what must come out.
//
// First every code point from 0 to 10FFFF, then the classes in full, then texts of RFC 3629 and of the Unicode Standard.
#![tactic(auto)]

mod points;
mod samples;

use std::io;

fn main(rt: HostRuntime) -> io::Result<()> {
    points::all(&rt)?;
    points::classes(&rt)?;
    samples::rfc(&rt)?;
    samples::unicode(&rt)
}
