// Replays the Rust's answers: a fixed list of cases on standard input, each with what the Rust answers. Some are short files, for strict
// reading, and some are literals of short files, for `resolve_literal`. The list is made by host/replay, which says how; this program needs
// no Rust.
//
// Numbers of two bytes have the most significant byte first. A case begins with one byte, 0 for a file and 1 for a literal. The file's length
// follows in two bytes, and the file; of a literal then its start and end in two bytes each, and in one byte whether its field is verbatim. The
// answer begins with one byte. Where it is not 0 it is the refusal's number, and start and end follow in two bytes each. Where it is 0 there
// follow in two bytes each how many numbers the rows have and how many bytes their text has, then the text, and then the numbers in two bytes
// each. A file has no text.
#![tactic(auto)]

ghost use Rattle.std.specs.Prelude.{◌<◌, ◌≤◌, length, take, IfOk};
ghost use Rattle.std.specs.Io.KnownBytes.{Consumes, IsAtEnd};

use raw::file;
use resolve::answer::Chunks;
use resolve::one_literal;
use row::fault;
use row::fault::Fault;
use std::io;
use std::io::Read;
use text::scanner;

// Where a case ends, and whether it was answered as the list has it.
#[derive(Clone, Copy)]
struct Case {
    next: usize,
    same: bool,
}

// The number in the byte at a place; past the end of the list all bytes are 0.
fn one(list: &[u8], at: usize) -> u32
    ensures { result < 256 }
{
    list.get(at).map_or(0, |b| u32::from(*b))
}

// The number in the two bytes from a place on.
fn two(list: &[u8], at: usize) -> u32
    requires { at < 1000000 }
    ensures { result < 65536 }
{
    one(list, at) * 256 + one(list, at + 1)
}

fn number(numbers: &[u32], i: usize) -> u32 {
    numbers.get(i).copied().unwrap_or(0)
}

// Whether the first n numbers are those from a place of the list on.
fn are_numbers(list: &[u8], at: usize, numbers: &[u32], n: usize) -> bool
    requires { (at < 700000) × (n < 65536) }
{
    (0..n).all(|i| number(numbers, i) == two(list, at + i * 2))
}

// Whether the first n bytes of a text are those from a place of the list on.
fn is_text(list: &[u8], at: usize, text: &[u8], n: usize) -> bool
    requires { (at < 700000) × (n < 65536) }
{
    (0..n).all(|i| one(text, i) == one(list, at + i))
}

fn is_refusal(list: &[u8], at: usize, f: Fault) -> bool
    requires { at < 500000 }
{
    let reason = f.reason;
    let start = f.start;
    let end = f.end;
    (fault::number(reason) == one(list, at))
        & (start == two(list, at + 1) as usize)
        & (end == two(list, at + 3) as usize)
}

// Whether the numbers of rows and a text of `len` bytes are those of the answer that stands at a place of the list.
fn are_rows(list: &[u8], at: usize, numbers: &[u32], text: &[u8], len: usize) -> bool
    requires { at < 500000 }
{
    let count = two(list, at + 1) as usize;
    let bytes = two(list, at + 3) as usize;
    if one(list, at) != 0 {
        return false;
    }
    if len != bytes {
        return false;
    }
    is_text(list, at + 5, text, bytes) & are_numbers(list, at + 5 + bytes, numbers, count)
}

// The end of the answer that stands at a place.
fn answer_end(list: &[u8], at: usize) -> usize
    requires { at < 500000 }
    ensures { at < result }
{
    let count = two(list, at + 1) as usize;
    let bytes = two(list, at + 3) as usize;
    if one(list, at) == 0 {
        at + 5 + bytes + count * 2
    } else {
        at + 5
    }
}

fn is_reading(list: &[u8], at: usize, reading: Result<usize, Fault>, rows: &[u32]) -> bool
    requires { at < 500000 }
{
    match reading {
        Err(f) => is_refusal(list, at, f),
        Ok(n) => { (n == two(list, at + 1) as usize / 4) & are_rows(list, at, rows, b"", 0) }
    }
}

// No name is resolved in a literal.
fn is_answer(
    list: &[u8],
    at: usize,
    answer: Result<Chunks, Fault>,
    chunks: &[u32],
    text: &[u8],
) -> bool
    requires { at < 500000 }
{
    match answer {
        Err(f) => is_refusal(list, at, f),
        Ok(Chunks { rows, bytes, names }) => {
            (names == 0)
                & (rows == two(list, at + 1) as usize / 5)
                & are_rows(list, at, chunks, text, bytes)
        }
    }
}

// Reads the file from a place of the list to another, and compares with the answer behind it. Its rows all fit: a file of the list is shorter
// than 200 bytes.
fn replay_file(list: &[u8], from: usize, to: usize) -> Case
    requires { to < 480000 }
    ensures { to < result.next }
{
    let mut rows = [0u32; 1024];
    let reading = file::read(scanner::from(list, from, to), &mut rows);
    let same = is_reading(list, to, reading, &rows);
    Case {
        next: answer_end(list, to),
        same,
    }
}

// Resolves a literal of that file, whose places stand behind it, and compares. Its chunks and their text fit: a literal of the list is shorter
// than 100 bytes.
fn replay_literal(list: &[u8], from: usize, to: usize) -> Case
    requires { to < 480000 }
    ensures { to < result.next }
{
    let start = two(list, to) as usize;
    let end = two(list, to + 2) as usize;
    let verbatim = one(list, to + 4) != 0;
    let mut scratch = [0u8; 32768];
    let mut chunks = [0u32; 512];
    let mut text = [0u8; 200];
    let answer = one_literal::resolve_literal(
        scanner::from(list, from, to),
        start,
        end,
        verbatim,
        &mut scratch,
        &mut chunks,
        &mut text,
    );
    let same = is_answer(list, to + 5, answer, &chunks, &text);
    Case {
        next: answer_end(list, to + 5),
        same,
    }
}

fn replay(list: &[u8], at: usize) -> Case
    requires { at < 400000 }
    ensures { at < result.next }
{
    let from = at + 3;
    let to = from + two(list, at + 1) as usize;
    if one(list, at) == 0 {
        return replay_file(list, from, to);
    }
    replay_literal(list, from, to)
}

// How many cases the list has, and how many of them were answered otherwise.
#[derive(Clone, Copy)]
struct Tally {
    cases: u64,
    differ: u64,
}

// Replays every case of the list, each of which says where the next one begins. A list that is too long counts as one without cases.
fn replay_all(list: &[u8]) -> Tally {
    if 400000 < list.len() {
        return Tally {
            cases: 0,
            differ: 0,
        };
    }
    let mut at = 0;
    let mut cases: u64 = 0;
    let mut same: u64 = 0;
    while at < list.len() {
        let case = replay(list, at);
        at = case.next;
        cases += 1;
        same += u64::from(case.same);
    }
    Tally {
        cases,
        differ: cases - same,
    }
}

// Reads until buf is full or the input ends, and answers how many bytes it put at the start of buf. A read that fails, or that a signal
// interrupts, ends it with that error.
//
// The program print_rows has the same function: no crate below both reads input. Of the library's, `read_exact` does not tell how many bytes a
// shorter input has, `io::copy` not that they fit, and `read_to_end` takes a heap.
fn read_full<R: Read>(input: &mut R, buf: &mut [u8]) -> io::Result<usize>
    ensures within { IfOk result (λ n. n ≤ length buf.new) }
    ensures bytes { IfOk result (λ n. Consumes (R.remaining input.old) (R.remaining input.new) (take n buf.new)) }
    ensures end { IfOk result (λ n. n < length buf.new → IsAtEnd (R.remaining input.new)) }
{
    let mut done = 0;
    while done < buf.len() {
        let n = input.read(&mut buf[done..])?;
        if n == 0 {
            return Ok(done);
        }
        done += n;
    }
    Ok(done)
}

fn main(rt: HostRuntime) -> io::Result<()> {
    let mut list = [0u8; 400000];
    let n = read_full(&mut rt.stdin(), &mut list)?;
    let tally = replay_all(&list[..n]);
    println!(rt; "{} cases, {} differ", tally.cases, tally.differ)
}
