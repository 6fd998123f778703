// The library for other languages: thin functions over the crates below, without `requires`. host/ has safe wrappers for Rust.
//
// Each answers 0, or document 01's number of the refusal. What else it has to say comes back in lent numbers: `count`, of the rows or bytes
// that it wrote, or 0; `start` and `end`, the refusal's place, or 0. A resolving call writes rows and bytes, and resolves names: `bytes` and
// `names` tell how many, or 0. A refusal leaves what was lent for rows or bytes as it was, and what lies past an answer stays as it was.
// Scratch holds zeros after the call, whatever it held. include/bib.h says all this to C.
#![tactic(auto)]

ghost use Rattle.std.specs.Prelude.{length};
ghost use Rattle.raw.specs.Read.{strict};
ghost use Rattle.salvage.specs.Salvage.{salvaged};
ghost use Rattle.bib.specs.Export.{is_set, Told, ExportedReading, ExportedPack, ExportedUnpack};
ghost use Rattle.bib.specs.Export.{ExportedFormatVerbatim, ExportedFormatSentence, ExportedToBiblatexString};
ghost use Rattle.whole.specs.WholeFile.{all_of};
ghost use Rattle.bib.specs.Export.{ToldResolving, ExportedLiteral, ExportedField, ToldFiling, ExportedFile};

use chunk::{biblatex, format, sentence};
use fields::field;
use pack::{packing, unpacking};
use raw::file;
use resolve::answer::Chunks;
use resolve::one_literal;
use row::fault;
use row::fault::Fault;
use whole::file as whole_file;
use whole::file::Filed;

// An outcome in lent numbers.
fn tell(outcome: Result<usize, Fault>, count: &mut u64, start: &mut u64, end: &mut u64) -> u32
    ensures { Told outcome result count.new start.new end.new }
{
    match outcome {
        Ok(n) => {
            *count = n as u64;
            *start = 0;
            *end = 0;
            return 0;
        }
        Err(f) => {
            *count = 0;
            *start = f.start as u64;
            *end = f.end as u64;
            return fault::number(f.reason);
        }
    }
}

// What resolving comes to, in lent numbers.
fn tell_resolving(
    answer: Result<Chunks, Fault>,
    count: &mut u64,
    bytes: &mut u64,
    names: &mut u64,
    start: &mut u64,
    end: &mut u64,
) -> u32
    ensures { ToldResolving answer result count.new bytes.new names.new start.new end.new }
{
    match answer {
        Ok(chunks) => {
            *bytes = chunks.bytes as u64;
            *names = chunks.names as u64;
            return tell(Ok(chunks.rows), count, start, end);
        }
        Err(f) => {
            *bytes = 0;
            *names = 0;
            return tell(Err(f), count, start, end);
        }
    }
}

// Reads a file strictly. Its rows stand in `rows`, four numbers to a row.
#[unsafe(no_mangle)]
pub extern "C" fn bib_read(
    file: &[u8],
    rows: &mut [u32],
    count: &mut u64,
    start: &mut u64,
    end: &mut u64,
) -> u32
    ensures { ExportedReading (strict file.now) rows.old result
        count.new start.new end.new rows.new }
{
    let reading = file::read(file, rows);
    tell(reading, count, start, end)
}

// Salvages a file: each piece is read alone, and of a damaged one the damage and its cause remain.
#[unsafe(no_mangle)]
pub extern "C" fn bib_salvage(
    file: &[u8],
    rows: &mut [u32],
    count: &mut u64,
    start: &mut u64,
    end: &mut u64,
) -> u32
    ensures { ExportedReading (salvaged file.now) rows.old result
        count.new start.new end.new rows.new }
{
    let salvaged = salvage::file::salvage(file, rows);
    tell(salvaged, count, start, end)
}

// Packs rows, seven bytes to a row, which stand in `bytes`. A refusal has no place here: 0..0.
#[unsafe(no_mangle)]
pub extern "C" fn bib_pack(
    rows: &[u32],
    bytes: &mut [u8],
    count: &mut u64,
    start: &mut u64,
    end: &mut u64,
) -> u32
    ensures { ExportedPack rows.now bytes.old result
        count.new start.new end.new bytes.new }
{
    let packed = packing::pack(rows, bytes);
    tell(packed, count, start, end)
}

// Unpacks rows, which stand in `rows`. A refusal has no place here: 0..0.
#[unsafe(no_mangle)]
pub extern "C" fn bib_unpack(
    bytes: &[u8],
    rows: &mut [u32],
    count: &mut u64,
    start: &mut u64,
    end: &mut u64,
) -> u32
    ensures { ExportedUnpack bytes.now rows.old result
        count.new start.new end.new rows.new }
{
    let unpacked = unpacking::unpack(bytes, rows);
    tell(unpacked, count, start, end)
}

// Formats chunks verbatim. The text that they are rows of is lent, and what they are formatted as stands in `bytes`.
#[unsafe(no_mangle)]
pub extern "C" fn bib_format_verbatim(
    text: &[u8],
    rows: &[u32],
    bytes: &mut [u8],
    count: &mut u64,
    start: &mut u64,
    end: &mut u64,
) -> u32
    ensures { ExportedFormatVerbatim text.now rows.now bytes.old result
        count.new start.new end.new bytes.new }
{
    let formatted = format::format_verbatim(text, rows, bytes);
    tell(formatted, count, start, end)
}

// Formats chunks in sentence case.
#[unsafe(no_mangle)]
pub extern "C" fn bib_format_sentence(
    text: &[u8],
    rows: &[u32],
    bytes: &mut [u8],
    count: &mut u64,
    start: &mut u64,
    end: &mut u64,
) -> u32
    ensures { ExportedFormatSentence text.now rows.now bytes.old result
        count.new start.new end.new bytes.new }
{
    let said = sentence::format_sentence(text, rows, bytes);
    tell(said, count, start, end)
}

// Serializes chunks into a BibLaTeX string, for a verbatim field unless `verbatim` is 0. A number and no `bool`, because C callers may pass
// any number, and a `bool` must be one of two.
#[unsafe(no_mangle)]
pub extern "C" fn bib_to_biblatex_string(
    text: &[u8],
    rows: &[u32],
    verbatim: u32,
    bytes: &mut [u8],
    count: &mut u64,
    start: &mut u64,
    end: &mut u64,
) -> u32
    ensures { ExportedToBiblatexString (is_set verbatim) text.now rows.now bytes.old result
        count.new start.new end.new bytes.new }
{
    let written = biblatex::to_biblatex_string(text, rows, verbatim != 0, bytes);
    tell(written, count, start, end)
}

// Resolves the literal that stands in a file from one place to another, of a verbatim field unless `verbatim` is 0. Its chunk rows stand in
// `chunks`, five numbers to a row, and their text in `text`. No name is resolved in a literal: `names` is 0.
#[unsafe(no_mangle)]
pub extern "C" fn bib_resolve_literal(
    file: &[u8],
    from: usize,
    to: usize,
    verbatim: u32,
    scratch: &mut [u8],
    chunks: &mut [u32],
    text: &mut [u8],
    count: &mut u64,
    bytes: &mut u64,
    names: &mut u64,
    start: &mut u64,
    end: &mut u64,
) -> u32
    ensures { ExportedLiteral file.now from to (is_set verbatim) scratch.old chunks.old text.old result
        count.new bytes.new names.new start.new end.new
        scratch.new chunks.new text.new }
{
    let resolved = one_literal::resolve_literal(
        file,
        from,
        to,
        verbatim != 0,
        scratch,
        chunks,
        text,
    );
    tell_resolving(resolved, count, bytes, names, start, end)
}

// Resolves the value whose row is number `which` of the rows, from 0, with the names in it. A month word has four numbers in `months`: where
// the word begins and ends in `words`, and where its text does.
#[unsafe(no_mangle)]
pub extern "C" fn bib_resolve_field(
    file: &[u8],
    rows: &[u32],
    which: usize,
    verbatim: u32,
    months: &[u32],
    words: &[u8],
    scratch: &mut [u8],
    chunks: &mut [u32],
    text: &mut [u8],
    count: &mut u64,
    bytes: &mut u64,
    names: &mut u64,
    start: &mut u64,
    end: &mut u64,
) -> u32
    ensures { ExportedField file.now rows.now which (is_set verbatim) months.now words.now
        scratch.old chunks.old text.old result
        count.new bytes.new names.new start.new end.new
        scratch.new chunks.new text.new }
{
    let resolved = field::resolve_field(
        file,
        rows,
        which,
        verbatim != 0,
        months,
        words,
        scratch,
        chunks,
        text,
    );
    tell_resolving(resolved, count, bytes, names, start, end)
}

// What resolving a whole file comes to, in lent numbers.
fn tell_filing(
    filed: Result<Filed, Fault>,
    count: &mut u64,
    chunk_rows: &mut u64,
    bytes: &mut u64,
    start: &mut u64,
    end: &mut u64,
) -> u32
    ensures { ToldFiling filed result count.new chunk_rows.new bytes.new start.new end.new }
{
    match filed {
        Ok(all) => {
            *chunk_rows = all.rows as u64;
            *bytes = all.bytes as u64;
            return tell(Ok(all.values), count, start, end);
        }
        Err(f) => {
            *chunk_rows = 0;
            *bytes = 0;
            return tell(Err(f), count, start, end);
        }
    }
}

// Resolves every value of a file, in the order of its rows. `flags` has a number for each value, which is not 0 where the field is verbatim;
// `answers` takes six numbers for each value. `count` tells the number of values, `chunk_rows` that of their chunk rows, and `bytes` that of the
// bytes of text. `heads` and `next` are for the index of the names, and hold zeros after the call.
#[unsafe(no_mangle)]
pub extern "C" fn bib_resolve_file(
    file: &[u8],
    rows: &[u32],
    flags: &[u8],
    months: &[u32],
    words: &[u8],
    scratch: &mut [u8],
    heads: &mut [u32],
    next: &mut [u32],
    answers: &mut [u32],
    chunks: &mut [u32],
    text: &mut [u8],
    count: &mut u64,
    chunk_rows: &mut u64,
    bytes: &mut u64,
    start: &mut u64,
    end: &mut u64,
) -> u32
    ensures { ExportedFile (all_of file.now rows.now flags.now months.now words.now
        (length scratch.old)) scratch.old heads.old next.old answers.old chunks.old
        text.old result count.new chunk_rows.new bytes.new start.new end.new
        scratch.new heads.new next.new answers.new chunks.new text.new }
{
    let filed = whole_file::resolve_file(
        file, rows, flags, months, words, scratch, heads, next, answers, chunks, text,
    );
    tell_filing(filed, count, chunk_rows, bytes, start, end)
}
