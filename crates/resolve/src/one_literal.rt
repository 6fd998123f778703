// A literal of a file resolved into lent chunk rows and text.
ghost use Rattle.std.specs.Prelude.{◌≡◌, [], ◌∷◌, ◌≤◌, ◌+◌, length, take};
ghost use Rattle.row.specs.Limits.{most_bytes, least_scratch};
ghost use Rattle.chunk.specs.declared.form.Kind.TheVariants.{Normal};
ghost use Rattle.chunk.specs.Chunk.{chunk};
ghost use Rattle.literal.specs.Literal.{resolve_literal};
ghost use Rattle.literal.specs.Inner.{ReadTo};
ghost use Rattle.resolve.specs.Resolves.{resolved, Writes, Resolves};
ghost use Rattle.resolve.specs.Progress.{BoundedAnswer};
ghost use Rattle.resolve.specs.OneLiteral.{is_span, value_of, literal_of};

use crate::answer::Chunks;
use crate::{answer, progress};
use chunk::put;
use command::tables::Tables;
use command::{names as commands, stack};
use compose;
use literal::parse;
use literal::parse::Begun;
use literal::rows::Rows;
use row::fault::{Fault, Reason};
use row::limits::LEAST_SCRATCH;
use row::{fault, form};
use text::utf8;

// Whether a span lies in the file and cuts no character.
pub fn is_span(file: &[u8], start: usize, end: usize) -> bool
    ensures { result ≡ is_span file.now start end }
{
    (start <= end) & (utf8::is_boundary(file, start) & utf8::is_boundary(file, end))
}

// Resolves the literal over a small room for rows first, past whose end rows are only counted. If all rows are in the small room they are copied
// from there; else the literal is resolved again. Its content is read up to `at`: it has only written text, which has `len` bytes and stands in
// the scratch. Here and below `verbatim` is the flag of the C interface, with no value beside it, and what C lends is handed on piece by piece: a
// function gets only what it may write.
fn write(
    s: &[u8],
    base: usize,
    verbatim: bool,
    at: usize,
    len: usize,
    scratch: &mut [u8],
    chunks: &mut [u32],
    text: &mut [u8],
    tables: Tables,
) -> Result<Chunks, Fault>
    requires { (base + length s.now ≤ most_bytes) × (least_scratch ≤ length scratch.old) × ReadTo verbatim s.now at len scratch.old }
    ensures { Writes (value_of (resolve_literal verbatim s.now base)) chunks.old text.old result
        chunks.new text.new }
{
    let none = Rows {
        n: 0,
        last: 3,
        from: 0,
        start: 0,
    };
    // Room that is lent to the writer as C's is: no heap. How much of it holds rows is `rows.n`.
    let mut few = [0u32; 160];
    let (rows, len) = parse::rest(
        s, base, verbatim, 0, none, at, len, scratch, &mut few, tables,
    )?;
    let n = rows.n;
    if (chunks.len() / 5 < n) | (text.len() < len) {
        return Err(fault::nowhere(Reason::NoRoom));
    }
    put::copy(scratch, 0, len, text, 0);
    let answer = Ok(Chunks {
        rows: n,
        bytes: len,
        names: 0,
    });
    if n <= 32 {
        form::copy_numbers(&few, n * 5, chunks);
        return answer;
    }
    let _ = parse::parse(s, base, verbatim, 0, none, scratch, chunks, tables);
    answer
}

// A literal that is one Normal chunk, whose text is the first n bytes of t.
fn one_chunk(
    t: &[u8],
    n: usize,
    start: usize,
    end: usize,
    chunks: &mut [u32],
    text: &mut [u8],
) -> Result<Chunks, Fault>
    requires { (n ≤ least_scratch) × (n ≤ length t.now) × (start ≤ most_bytes) × (end ≤ most_bytes) }
    ensures { Writes (resolved (chunk Normal (take n t.now) start end ∷ []) 0) chunks.old text.old result
        chunks.new text.new }
{
    if (chunks.len() / 5 < 1) | (text.len() < n) {
        return Err(fault::nowhere(Reason::NoRoom));
    }
    parse::whole(start, end, 0, n, progress::none(), chunks);
    put::copy(t, 0, n, text, 0);
    Ok(Chunks {
        rows: 1,
        bytes: n,
        names: 0,
    })
}

// Resolves a literal that stands at `base` in its file, by tables that are lent.
pub fn single(
    s: &[u8],
    base: usize,
    verbatim: bool,
    scratch: &mut [u8],
    chunks: &mut [u32],
    text: &mut [u8],
    tables: Tables,
) -> Result<Chunks, Fault>
    requires { (base + length s.now ≤ most_bytes) × (least_scratch ≤ length scratch.old) }
    ensures writes { Writes (value_of (resolve_literal verbatim s.now base)) chunks.old text.old result
        chunks.new text.new }
    ensures bounded_answer { BoundedAnswer result }
{
    match parse::begin(s, verbatim, scratch) {
        Begun::Whole(n) => one_chunk(scratch, n, base, base + s.len(), chunks, text),
        Begun::Part { at, len } => write(s, base, verbatim, at, len, scratch, chunks, text, tables),
    }
}

// `single` by tables of its own, which are made only if the literal is more than text.
fn with_tables(
    s: &[u8],
    base: usize,
    verbatim: bool,
    scratch: &mut [u8],
    chunks: &mut [u32],
    text: &mut [u8],
) -> Result<Chunks, Fault>
    requires { (base + length s.now ≤ most_bytes) × (least_scratch ≤ length scratch.old) }
    ensures { Writes (value_of (resolve_literal verbatim s.now base)) chunks.old text.old result
        chunks.new text.new }
{
    match parse::begin(s, verbatim, scratch) {
        Begun::Whole(n) => one_chunk(scratch, n, base, base + s.len(), chunks, text),
        Begun::Part { at, len } => {
            let names = commands::names();
            let marks = compose::table();
            let tables = Tables {
                names: &names,
                marks: &marks,
            };
            write(s, base, verbatim, at, len, scratch, chunks, text, tables)
        }
    }
}

// Resolves a literal of a file, after the checks that every call makes first.
fn literal(
    file: &[u8],
    start: usize,
    end: usize,
    verbatim: bool,
    scratch: &mut [u8],
    chunks: &mut [u32],
    text: &mut [u8],
) -> Result<Chunks, Fault>
    ensures { Writes (literal_of file.now start end verbatim (length scratch.old)) chunks.old
        text.old result chunks.new text.new }
{
    // Named for the goal of its refusal, at which the fault `seventeen_before_two` must fall.
    let checked = answer::check_file(file)?;
    if !is_span(file, start, end) {
        return Err(fault::nowhere(Reason::BadRows));
    }
    if scratch.len() < LEAST_SCRATCH {
        return Err(fault::nowhere(Reason::NoRoom));
    }
    with_tables(&file[start..end], start, verbatim, scratch, chunks, text)
}

// Resolves the literal that stands in a file from one place to another: its chunks' rows, five numbers to a row, and their text; or the refusal,
// which leaves both as they were. The scratch holds zeros afterwards, whatever it held.
pub fn resolve_literal(
    file: &[u8],
    start: usize,
    end: usize,
    verbatim: bool,
    scratch: &mut [u8],
    chunks: &mut [u32],
    text: &mut [u8],
) -> Result<Chunks, Fault>
    ensures { Resolves (literal_of file.now start end verbatim (length scratch.old)) scratch.old
        chunks.old text.old result scratch.new chunks.new text.new }
{
    let r = literal(file, start, end, verbatim, scratch, chunks, text);
    stack::wipe(scratch);
    r
}
