// The value of a row, after `parse_field` of resolve.rs: counted, written, or resolved by a call of its own.
ghost use Rattle.std.specs.Prelude.{length};
ghost use Rattle.resolve.specs.Resolves.{Writes, Resolves};
ghost use Rattle.resolve.specs.Progress.{BoundedWent, BoundedAnswer, Counted};
ghost use Rattle.values.specs.Field.{field_of};
ghost use Rattle.values.specs.Uses.{lent_in};
ghost use Rattle.fields.specs.OneField.{value_at, Resolving};

use command::tables::Tables;
use command::{names as commands, stack};
use compose;
use resolve::answer::Chunks;
use resolve::progress::Progress;
use resolve::{answer, lent, one_literal, progress};
use row::fault;
use row::fault::{Fault, Reason};
use row::limits::{LEAST_SCRATCH, MOST_OPEN};
use values::elements;
use values::resolver::Resolver;

// What the value of row `which` comes to, counted over no room.
pub fn count(
    resolver: &Resolver,
    verbatim: bool,
    which: usize,
    scratch: &mut [u8],
) -> Result<Progress, Fault>
    requires { Resolving resolver.now which scratch.old }
    ensures counted { Counted (field_of (lent_in resolver.now) verbatim which) result }
    ensures bounded_went { BoundedWent result }
{
    let mut path = [0usize; MOST_OPEN];
    let mut no_rows = [0u32; 0];
    let mut no_text = [0u8; 0];
    resolver.value(
        verbatim,
        MOST_OPEN,
        &mut path,
        which * 4 + 4,
        progress::begin(),
        scratch,
        &mut no_rows,
        &mut no_text,
    )
}

// Resolves the value of row `which` over a small room first, past whose end rows and bytes are only counted. If the value fits there it is copied
// from there; else it is resolved again.
fn several(
    resolver: &Resolver,
    verbatim: bool,
    which: usize,
    scratch: &mut [u8],
    chunks: &mut [u32],
    text: &mut [u8],
) -> Result<Chunks, Fault>
    requires { Resolving resolver.now which scratch.old }
    ensures writes { Writes (field_of (lent_in resolver.now) verbatim which)
        chunks.old text.old result chunks.new text.new }
    ensures bounded_answer { BoundedAnswer result }
{
    let at = which * 4 + 4;
    let mut path = [0usize; MOST_OPEN];
    let mut few = [0u32; 160];
    let mut short = [0u8; 1024];
    let first = progress::begin();
    let st = resolver.value(
        verbatim, MOST_OPEN, &mut path, at, first, scratch, &mut few, &mut short,
    )?;
    if !progress::fits(st, chunks, text) {
        return Err(fault::nowhere(Reason::NoRoom));
    }
    if progress::fits(st, &few, &short) {
        progress::copy_out(st, &few, &short, chunks, text);
        return Ok(progress::answer(st));
    }
    let _ = resolver.value(
        verbatim, MOST_OPEN, &mut path, at, first, scratch, chunks, text,
    );
    Ok(progress::answer(st))
}

// Resolves the value of row `which`. Most values are one literal, which needs no room of its own.
pub fn write(
    resolver: &Resolver,
    verbatim: bool,
    which: usize,
    scratch: &mut [u8],
    chunks: &mut [u32],
    text: &mut [u8],
) -> Result<Chunks, Fault>
    requires { Resolving resolver.now which scratch.old }
    ensures writes { Writes (field_of (lent_in resolver.now) verbatim which)
        chunks.old text.old result chunks.new text.new }
    ensures bounded_answer { BoundedAnswer result }
{
    match elements::only_literal(resolver.rows, which * 4 + 4) {
        Some((start, end)) => one_literal::single(
            &resolver.file[start..end],
            start,
            verbatim,
            scratch,
            chunks,
            text,
            resolver.tables,
        ),
        None => several(resolver, verbatim, which, scratch, chunks, text),
    }
}

// Resolves the value of row `which`, after the checks that every call makes first.
fn field<'a>(
    file: &'a [u8],
    rows: &'a [u32],
    which: usize,
    verbatim: bool,
    months: &'a [u32],
    words: &'a [u8],
    scratch: &mut [u8],
    chunks: &mut [u32],
    text: &mut [u8],
) -> Result<Chunks, Fault>
    ensures { Writes (value_at file.now rows.now which verbatim months.now words.now
        (length scratch.old)) chunks.old text.old result chunks.new text.new }
{
    // Named for the goal of its refusal, at which the fault `seventeen_before_two` must fall.
    let checked = answer::check_file(file)?;
    if !(lent::are_lent(file, rows, months, words) & lent::is_value(rows, which)) {
        return Err(fault::nowhere(Reason::BadRows));
    }
    if scratch.len() < LEAST_SCRATCH {
        return Err(fault::nowhere(Reason::NoRoom));
    }
    let heads = [0u32; 0];
    let next = [0u32; 0];
    let names = commands::names();
    let marks = compose::table();
    let tables = Tables {
        names: &names,
        marks: &marks,
    };
    let resolver = Resolver {
        file,
        rows,
        months,
        words,
        heads: &heads,
        next: &next,
        tables,
    };
    write(&resolver, verbatim, which, scratch, chunks, text)
}

// Resolves the value whose row is number `which` of the rows, from 0: its chunks' rows, five numbers to a row, their text, and the number of
// names; or the refusal, which leaves rows and text as they were. The scratch holds zeros afterwards, whatever it held. A month word has four
// numbers: where the word begins and ends in `words`, and where its text does.
pub fn resolve_field(
    file: &[u8],
    rows: &[u32],
    which: usize,
    verbatim: bool,
    months: &[u32],
    words: &[u8],
    scratch: &mut [u8],
    chunks: &mut [u32],
    text: &mut [u8],
) -> Result<Chunks, Fault>
    ensures { Resolves (value_at file.now rows.now which verbatim months.now words.now
        (length scratch.old)) scratch.old chunks.old text.old result
        scratch.new chunks.new text.new }
{
    let r = field(
        file, rows, which, verbatim, months, words, scratch, chunks, text,
    );
    stack::wipe(scratch);
    r
}
