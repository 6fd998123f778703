// Every value of a file resolved in one call. What is lent is checked once, and names are found by an index that is built once.
//
// A refusal of the call must leave its outputs as they were, so it is settled first that there is room for all values. A bound says so for
// little work where much room is lent. Only where it does not, the values are counted before they are written.
ghost use Rattle.std.specs.Prelude.{◌≡◌, true, false, List, [], ◌∷◌, ℕ, ◌+◌, ◌*◌, ◌/◌, ◌≤◌, ◌<◌, length, drop};
ghost use Rattle.std.proofs.lemmas.List.Edits.{sets};
ghost use Rattle.row.specs.Numbers.{rows_of};
ghost use Rattle.row.specs.Limits.{most_bytes, least_scratch};
ghost use Rattle.literal.specs.Rows.{most_number, most_rows};
ghost use Rattle.lookup.specs.Names.{row_no};
ghost use Rattle.lookup.specs.RowIndex.{Indexed};
ghost use Rattle.resolve.specs.Resolves.{Value};
ghost use Rattle.resolve.specs.Checks.{lent_of, are_lent};
ghost use Rattle.values.specs.Uses.{lent_in};
ghost use Rattle.resolve.specs.Progress.{BoundedWent, BoundedAnswer};
ghost use Rattle.whole.specs.WholeFile.{is_value_row, flag, values as values_of, results, fits_all, all, WritesAll, all_of, ResolvesFile};
ghost use Rattle.whole.specs.Filing.{Filing, BoundedTotals, CountsAll, AddsTo, AddsCounted, AddsAnswer, FitsBehind, six_of, WroteAll, CountedTo, WroteTo};
ghost use Rattle.whole.specs.Bounds.{UseAtMost, CoversAll, CoversTo, CoversCounted, Covered};

use crate::bound;
use crate::bound::Most;
use command::tables::Tables;
use command::{names as commands, stack};
use compose;
use fields::field;
use literal::rows::MOST_NUMBER;
use lookup::index;
use resolve::answer::Chunks;
use resolve::progress::Progress;
use resolve::{answer, lent};
use row::fault;
use row::fault::{Fault, Reason};
use row::form::VALUE;
use row::limits::LEAST_SCRATCH;
use values::resolver::Resolver;

// The values, chunk rows and bytes of text that were written.
#[derive(Clone, Copy)]
pub struct Filed {
    pub values: usize,
    pub rows: usize,
    pub bytes: usize,
}

// The values so far, and the chunk rows and bytes of text that they have together; or that there is more of these than can be written. That is a
// flag and no variant, since the values are counted on where it is set.
#[derive(Clone, Copy)]
pub struct Totals {
    pub values: usize,
    pub rows: usize,
    pub bytes: usize,
    pub over: bool,
}

fn is_value(rows: &[u32], i: usize) -> bool
    requires { i < length rows.now / 4 }
    ensures { result ≡ is_value_row (row_no (rows_of rows.now) i) }
{
    rows[i * 4] == VALUE
}

// How many rows are values.
fn values(rows: &[u32]) -> usize
    ensures { result ≡ values_of (rows_of rows.now) }
{
    let mut n = 0;
    for i in 0..rows.len() / 4 {
        if is_value(rows, i) {
            n += 1;
        }
    }
    n
}

// The flag of value k.
fn flag_at(flags: &[u8], k: usize) -> bool
    requires { k < length flags.now }
    ensures { result ≡ flag (drop k flags.now) }
{
    flags[k] != 0
}

// One value more. Where there is more than can be written, it is no longer counted.
fn add(t: Totals, rows: usize, bytes: usize, over: bool) -> Totals
    requires { BoundedTotals t × (rows ≤ most_rows) × (bytes ≤ most_number) × (t.values ≤ 4611686018427387904) }
    ensures { AddsTo t rows bytes over result × BoundedTotals result × CoversTo t rows bytes over result }
{
    let n = t.rows + rows;
    let m = t.bytes + bytes;
    if t.over | over | (MOST_NUMBER < n) | (MOST_NUMBER < m) {
        return Totals {
            values: t.values + 1,
            rows: 0,
            bytes: 0,
            over: true,
        };
    }
    Totals {
        values: t.values + 1,
        rows: n,
        bytes: m,
        over: false,
    }
}

// Adds what a value came to that was counted.
fn add_counted(t: Totals, w: Result<Progress, Fault>) -> Totals
    requires { BoundedTotals t × BoundedWent w × (t.values ≤ 4611686018427387904) }
    ensures { AddsCounted t w result × BoundedTotals result × CoversCounted t w result }
{
    match w {
        Err(_) => add(t, 0, 0, false),
        Ok(st) => {
            let rows = st.rows;
            add(t, rows.n, st.bytes, st.over)
        }
    }
}

fn none() -> Totals
    ensures { CountsAll [] result × BoundedTotals result × (result.values ≡ 0) × (result.over ≡ false) }
{
    Totals {
        values: 0,
        rows: 0,
        bytes: 0,
        over: false,
    }
}

// Whether there is room for all that was counted; or, where a bound was counted, whether there surely is.
fn fits(t: Totals, answers: &[u32], chunks: &[u32], text: &[u8]) -> bool
    requires { BoundedTotals t }
    ensures { ((vs : List Value) → CountsAll vs t → result ≡ fits_all vs answers.now chunks.now text.now) ×
        ((vs : List Value) → CoversAll vs t → result ≡ true → fits_all vs answers.now chunks.now text.now ≡ true) }
{
    !t.over
        & (t.values <= answers.len() / 6)
        & (t.rows <= chunks.len() / 5)
        & (t.bytes <= text.len())
}

// What C lends is handed on piece by piece, here and below: a function gets only what it may read or write, so that the rest stays as it is by its
// type.

// Whether there is room for all values. They are counted over no room, and no further than to where there is more than is lent.
fn counted_fits(
    resolver: &Resolver,
    flags: &[u8],
    scratch: &mut [u8],
    answers: &[u32],
    chunks: &[u32],
    text: &[u8],
) -> bool
    requires { Filing resolver.now flags.now scratch.old }
    ensures { result ≡ fits_all (results (lent_in resolver.now) flags.now)
        answers.now chunks.now text.now }
{
    let mut t = none();
    for i in 0..resolver.rows.len() / 4 {
        if !is_value(resolver.rows, i) {
            continue;
        }
        let verbatim = flag_at(flags, t.values);
        let w = field::count(resolver, verbatim, i, scratch);
        t = add_counted(t, w);
        if !fits(t, answers, chunks, text) {
            return false;
        }
    }
    fits(t, answers, chunks, text)
}

// Adds what row i comes to at most, if it is a value, to what the rows before it come to at most. A use of a name comes to at most `name`. A value
// of which nothing is known is counted. Like `write_row` it passes by what is no value, and has nothing else in common with it.
fn bound_row(
    resolver: &Resolver,
    flags: &[u8],
    i: usize,
    t: Totals,
    name: Option<Most>,
    scratch: &mut [u8],
) -> Totals
    requires { Filing resolver.now flags.now scratch.old ×
        (i < length resolver.now.rows.now / 4) × BoundedTotals t × Covered (lent_in resolver.now) flags.now i t ×
        UseAtMost (lent_in resolver.now) name }
    ensures { Covered (lent_in resolver.now) flags.now (i + 1) result
        × BoundedTotals result }
{
    if !is_value(resolver.rows, i) {
        return t;
    }
    match bound::most_of(resolver.rows, i, name) {
        Some(most) => add(t, most.rows, most.bytes, false),
        None => {
            let flag = flag_at(flags, t.values);
            let w = field::count(resolver, flag, i, scratch);
            add_counted(t, w)
        }
    }
}

// Whether there surely is room for all values, told from what they come to at most, where a use of a name comes to at most `name`. It goes no
// further than to where that is more than is lent.
fn surely_fits(
    resolver: &Resolver,
    flags: &[u8],
    name: Option<Most>,
    scratch: &mut [u8],
    answers: &[u32],
    chunks: &[u32],
    text: &[u8],
) -> bool
    requires { Filing resolver.now flags.now scratch.old ×
        UseAtMost (lent_in resolver.now) name }
    ensures { result ≡ true → fits_all (results (lent_in resolver.now) flags.now)
        answers.now chunks.now text.now ≡ true }
{
    let mut most = none();
    for i in 0..resolver.rows.len() / 4 {
        most = bound_row(resolver, flags, i, most, name, scratch);
        if !fits(most, answers, chunks, text) {
            return false;
        }
    }
    fits(most, answers, chunks, text)
}

// Whether there surely is room for all values. Where the bound of names does not say so, values with names are counted.
fn surely_has_room(
    resolver: &Resolver,
    flags: &[u8],
    scratch: &mut [u8],
    answers: &[u32],
    chunks: &[u32],
    text: &[u8],
) -> bool
    requires { Filing resolver.now flags.now scratch.old }
    ensures { result ≡ true → fits_all (results (lent_in resolver.now) flags.now)
        answers.now chunks.now text.now ≡ true }
{
    let name = bound::most_of_names(resolver.rows, resolver.months);
    if surely_fits(resolver, flags, name, scratch, answers, chunks, text) {
        return true;
    }
    if name.is_none() {
        return false;
    }
    surely_fits(resolver, flags, None, scratch, answers, chunks, text)
}

// Whether there is room for all values. Where no bound says so, all are counted.
fn has_room(
    resolver: &Resolver,
    flags: &[u8],
    scratch: &mut [u8],
    answers: &[u32],
    chunks: &[u32],
    text: &[u8],
) -> bool
    requires { Filing resolver.now flags.now scratch.old }
    ensures { result ≡ fits_all (results (lent_in resolver.now) flags.now)
        answers.now chunks.now text.now }
{
    if surely_has_room(resolver, flags, scratch, answers, chunks, text) {
        return true;
    }
    counted_fits(resolver, flags, scratch, answers, chunks, text)
}

// Writes the answer row of value k.
fn put_answer(
    answers: &mut [u32],
    k: usize,
    number: u32,
    names: u32,
    first: u32,
    last: u32,
    from: u32,
    to: u32,
)
    requires { k < length answers.old / 6 }
    ensures { answers.new ≡ sets answers.old (k * 6) (number ∷ names ∷ first ∷ last ∷ from ∷ to ∷ []) }
{
    let at = k * 6;
    answers[at] = number;
    answers[at + 1] = names;
    answers[at + 2] = first;
    answers[at + 3] = last;
    answers[at + 4] = from;
    answers[at + 5] = to;
}

// Writes the answer row of a value, whose rows and text stand behind those of the values before it.
fn answer_row(answers: &mut [u32], t: Totals, a: Result<Chunks, Fault>) -> Totals
    requires { BoundedTotals t × BoundedAnswer a × FitsBehind t a × (t.values < length answers.old / 6) × (t.values ≤ 4611686018427387904) }
    ensures answers_after { answers.new ≡ sets answers.old (t.values * 6) (six_of t a) }
    ensures adds_answer { AddsAnswer t a result × BoundedTotals result }
{
    match a {
        Err(f) => {
            let reason = f.reason;
            put_answer(
                answers,
                t.values,
                fault::number(reason),
                0,
                f.start as u32,
                f.end as u32,
                0,
                0,
            );
            add(t, 0, 0, false)
        }
        Ok(chunks) => {
            put_answer(
                answers,
                t.values,
                0,
                chunks.names as u32,
                t.rows as u32,
                (t.rows + chunks.rows) as u32,
                t.bytes as u32,
                (t.bytes + chunks.bytes) as u32,
            );
            add(t, chunks.rows, chunks.bytes, false)
        }
    }
}

// Writes row i, if it is a value, behind what the rows before it came to. There is room for all values.
fn write_row(
    resolver: &Resolver,
    flags: &[u8],
    i: usize,
    t: Totals,
    scratch: &mut [u8],
    answers: &mut [u32],
    chunks: &mut [u32],
    text: &mut [u8],
) -> Totals
    requires { Filing resolver.now flags.now scratch.old ×
        (i < length resolver.now.rows.now / 4) × CountedTo (lent_in resolver.now) flags.now i t ×
        (fits_all (results (lent_in resolver.now) flags.now) answers.old chunks.old text.old ≡ true) }
    ensures { (q b x : List ℕ) → WroteTo (lent_in resolver.now) flags.now i
        q b x t answers.old chunks.old text.old →
        WroteTo (lent_in resolver.now) flags.now (i + 1)
        q b x result answers.new chunks.new text.new }
{
    if !is_value(resolver.rows, i) {
        return t;
    }
    let verbatim = flag_at(flags, t.values);
    let first = t.rows * 5;
    let from = t.bytes;
    let a = field::write(
        resolver,
        verbatim,
        i,
        scratch,
        &mut chunks[first..],
        &mut text[from..],
    );
    answer_row(answers, t, a)
}

// Writes every value. There is room for all of them.
fn write(
    resolver: &Resolver,
    flags: &[u8],
    scratch: &mut [u8],
    answers: &mut [u32],
    chunks: &mut [u32],
    text: &mut [u8],
) -> Totals
    requires filing { Filing resolver.now flags.now scratch.old }
    requires text_value { fits_all (results (lent_in resolver.now) flags.now) answers.old chunks.old text.old ≡ true }
    ensures { WroteAll (results (lent_in resolver.now) flags.now)
        answers.old chunks.old text.old answers.new chunks.new text.new ×
        CountsAll (results (lent_in resolver.now) flags.now) result }
{
    let mut t = none();
    for i in 0..resolver.rows.len() / 4 {
        t = write_row(resolver, flags, i, t, scratch, answers, chunks, text);
    }
    t
}

// Writes all values if there is room for them. The checks have passed, and the index is built.
fn indexed<'a>(
    file: &'a [u8],
    rows: &'a [u32],
    flags: &[u8],
    months: &'a [u32],
    words: &'a [u8],
    heads: &'a [u32],
    next: &'a [u32],
    scratch: &mut [u8],
    answers: &mut [u32],
    chunks: &mut [u32],
    text: &mut [u8],
) -> Result<Filed, Fault>
    requires { (length file.now ≤ most_bytes) × (are_lent file.now rows.now months.now words.now ≡ true) ×
        Indexed file.now rows.now heads.now next.now × (values_of (rows_of rows.now) ≤ length flags.now) × (least_scratch ≤ length scratch.old) }
    ensures { WritesAll (all (results (lent_of file.now rows.now months.now words.now) flags.now))
        answers.old chunks.old text.old result answers.new chunks.new text.new }
{
    let names = commands::names();
    let marks = compose::table();
    let tables = Tables {
        names: &names,
        marks: &marks,
    };
    let resolver = Resolver {
        file,
        rows,
        months,
        words,
        heads,
        next,
        tables,
    };
    if !has_room(&resolver, flags, scratch, answers, chunks, text) {
        return Err(fault::nowhere(Reason::NoRoom));
    }
    let t = write(&resolver, flags, scratch, answers, chunks, text);
    Ok(Filed {
        values: t.values,
        rows: t.rows,
        bytes: t.bytes,
    })
}

// The checks that every call makes first, then the index and the values.
fn whole(
    file: &[u8],
    rows: &[u32],
    flags: &[u8],
    months: &[u32],
    words: &[u8],
    heads: &mut [u32],
    next: &mut [u32],
    scratch: &mut [u8],
    answers: &mut [u32],
    chunks: &mut [u32],
    text: &mut [u8],
) -> Result<Filed, Fault>
    ensures { WritesAll (all_of file.now rows.now flags.now months.now words.now
        (length scratch.old)) answers.old chunks.old text.old result
        answers.new chunks.new text.new }
{
    // Named for the goal of its refusal, at which the fault `seventeen_before_two` must fall.
    let checked = answer::check_file(file)?;
    if !(lent::are_lent(file, rows, months, words) & (values(rows) <= flags.len())) {
        return Err(fault::nowhere(Reason::BadRows));
    }
    if scratch.len() < LEAST_SCRATCH {
        return Err(fault::nowhere(Reason::NoRoom));
    }
    index::build(file, rows, heads, next);
    indexed(
        file, rows, flags, months, words, heads, next, scratch, answers, chunks, text,
    )
}

// Resolves every value row in the order of the rows. The answer of each value has six numbers in `answers`: 0, the names resolved, the range of
// its rows in `chunks` and the range of its text in `text`; or the number of its refusal, 0, the refusal's place, and 0 twice. `flags` has a
// number for each value, which is not 0 where the field is verbatim. `heads` and `next` are for the index of the names: a bucket in `heads` for
// every second row or so, and a number in `next` for each row; with fewer the answer is the same and the search is slow. They and the scratch
// hold zeros afterwards, whatever they held.
pub fn resolve_file(
    file: &[u8],
    rows: &[u32],
    flags: &[u8],
    months: &[u32],
    words: &[u8],
    scratch: &mut [u8],
    heads: &mut [u32],
    next: &mut [u32],
    answers: &mut [u32],
    chunks: &mut [u32],
    text: &mut [u8],
) -> Result<Filed, Fault>
    ensures { ResolvesFile (all_of file.now rows.now flags.now months.now words.now
        (length scratch.old)) scratch.old heads.old next.old answers.old chunks.old
        text.old result scratch.new heads.new next.new answers.new chunks.new
        text.new }
{
    let r = whole(
        file, rows, flags, months, words, heads, next, scratch, answers, chunks, text,
    );
    stack::wipe(scratch);
    index::clear(heads);
    index::clear(next);
    r
}
