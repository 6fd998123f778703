// Prints the rows of a .bib file that it reads from standard input, or the refusal, as document 01 says.
#![tactic(auto)]

ghost use Rattle.std.specs.Prelude.{◌<◌, ◌≤◌, length, take, IfOk};
ghost use Rattle.std.specs.Io.KnownBytes.{Consumes, IsAtEnd};

use raw::file;
use row::fault;
use row::fault::{Fault, Reason};
use std::io;
use std::io::Read;

// Reads until buf is full or the input ends, and answers how many bytes it put at the start of buf. A read that fails, or that a signal
// interrupts, ends it with that error.
//
// The program replay has the same function: no crate below both reads input. Of the library's, `read_exact` does not tell how many bytes a
// shorter input has, `io::copy` not that they fit, and `read_to_end` takes a heap.
fn read_full<R: Read>(input: &mut R, buf: &mut [u8]) -> io::Result<usize>
    ensures within { IfOk result (λ n. n ≤ length buf.new) }
    ensures bytes { IfOk result (λ n. Consumes (R.remaining input.old) (R.remaining input.new) (take n buf.new)) }
    ensures end { IfOk result (λ n. n < length buf.new → IsAtEnd (R.remaining input.new)) }
{
    let mut done = 0;
    while done < buf.len() {
        let n = input.read(&mut buf[done..])?;
        if n == 0 {
            return Ok(done);
        }
        done += n;
    }
    Ok(done)
}

// `kind detail start end`, and last how many rows there are
fn print_rows(rt: &impl Print, rows: &[u32], n: usize) -> io::Result<()> {
    let (rows, _) = rows.as_chunks::<4>();
    for row in rows.iter().take(n) {
        let [kind, detail, start, end] = row;
        println!(rt; "{kind} {detail} {start} {end}")?;
    }
    println!(rt; "rows {n}")
}

fn print_refusal(rt: &impl Print, f: Fault) -> io::Result<()> {
    println!(rt; "refused {} {} {}", fault::number(f.reason), f.start, f.end)
}

fn main(rt: HostRuntime) -> io::Result<()> {
    let mut text = [0u8; 65537];
    let n = read_full(&mut rt.stdin(), &mut text)?;
    if 65536 < n {
        return print_refusal(&rt, fault::nowhere(Reason::TooLong));
    }
    let mut rows = [0u32; 16384];
    let reading = file::read(&text[..n], &mut rows);
    match reading {
        Ok(m) => print_rows(&rt, &rows, m),
        Err(f) => print_refusal(&rt, f),
    }
}
