// The chunks of a value as they are resolved: counted, and written as far as there is room.
ghost use Rattle.std.specs.Prelude.{◌≡◌, true, List, [], ◌∷◌, ◌++◌, ℕ, ◌+◌, ◌*◌, ◌≤◌, length, take, drop};
ghost use Rattle.std.proofs.lemmas.List.Edits.{sets};
ghost use Rattle.text.specs.Scan.{part};
ghost use Rattle.row.specs.Limits.{most_bytes, most_names, least_scratch};
ghost use Rattle.chunk.specs.declared.form.Kind.TheVariants.{Normal};
ghost use Rattle.chunk.specs.Chunk.{Chunk, chunk};
ghost use Rattle.turn.specs.Content.{flatten};
ghost use Rattle.literal.specs.Rows.{RowsHold};
ghost use Rattle.literal.specs.Literal.{resolve_literal};
ghost use Rattle.resolve.specs.Resolves.{fits as fits_of};
ghost use Rattle.resolve.specs.Runs.{of_literal};
ghost use Rattle.resolve.specs.Progress.{small, Has, answer_of, Bounded, Adds, Appends, SaysRun, BoundedWent};

use crate::answer::Chunks;
use chunk::form::Kind;
use chunk::put;
use command::tables::Tables;
use literal::rows::{MOST_NUMBER, MOST_ROWS, Rows};
use literal::{making, parse, rows};
use row::fault::Fault;
use row::form;

// The rows, bytes of text and names so far; or that there is more of them than can be written. That is a flag and no variant, since the names are
// counted on where it is set.
#[derive(Clone, Copy)]
pub struct Progress {
    pub rows: Rows,
    pub bytes: usize,
    pub names: usize,
    pub over: bool,
}

// No row so far.
pub fn none() -> Rows
    ensures by_index { (b : List ℕ) → RowsHold [] b result b }
    ensures n_value { result.n ≡ 0 }
{
    Rows {
        n: 0,
        last: 3,
        from: 0,
        start: 0,
    }
}

// The beginning of a value.
pub fn begin() -> Progress
    ensures { ((b t : List ℕ) → Has [] b t result b t) × Bounded result × (result.names ≡ 0) }
{
    Progress {
        rows: none(),
        bytes: 0,
        names: 0,
        over: false,
    }
}

// Appends chunks whose rows are written already: counts them, and copies their text, which stands in `from`, from `first` to `last`.
fn append(
    st: Progress,
    rows: Rows,
    from: &[u8],
    first: usize,
    last: usize,
    text: &mut [u8],
) -> Progress
    requires { Bounded st × (first ≤ last) × (last ≤ length from.now) }
    ensures appends { Appends rows from.now first last st text.old result text.new }
    ensures bounded { Bounded result × (result.names ≡ st.names) }
{
    let at = st.bytes;
    let bytes = at + (last - first);
    if st.over | (MOST_NUMBER < bytes) | (MOST_ROWS < rows.n) {
        return Progress {
            rows: none(),
            bytes: 0,
            names: st.names,
            over: true,
        };
    }
    put::copy(from, first, last, text, at);
    Progress {
        rows,
        bytes,
        names: st.names,
        over: false,
    }
}

// Appends the chunks of a literal, which stands at `base` in the file. `verb` is the flag of the C interface, with no value beside it, and what C
// lends comes piece by piece, as in `one_literal`.
pub fn literal(
    s: &[u8],
    base: usize,
    verb: bool,
    st: Progress,
    scratch: &mut [u8],
    chunks: &mut [u32],
    text: &mut [u8],
    tables: Tables,
) -> Result<Progress, Fault>
    requires { (least_scratch ≤ length scratch.old) × Bounded st × (base + length s.now ≤ most_bytes) }
    ensures says_run { SaysRun (of_literal (resolve_literal verb s.now base) st.names) st chunks.old text.old result
        chunks.new text.new }
    ensures bounded_went { BoundedWent result }
{
    let before = st.bytes;
    let have = st.rows;
    let (rows, len) = parse::parse(s, base, verb, before, have, scratch, chunks, tables)?;
    Ok(append(st, rows, scratch, 0, len, text))
}

// Appends the text of a month word, which stands in `words`, as one Normal chunk. The word is used in the file from `start` to `end`.
pub fn month(
    words: &[u8],
    from: usize,
    to: usize,
    start: u32,
    end: u32,
    st: Progress,
    chunks: &mut [u32],
    text: &mut [u8],
) -> Progress
    requires { Bounded st × (from ≤ to) × (to ≤ length words.now) }
    ensures adds { Adds (chunk Normal (part words.now from to) start end ∷ []) st chunks.old text.old result
        chunks.new text.new }
    ensures bounded { Bounded result × (result.names ≡ st.names) }
{
    let at = st.bytes;
    let bytes = at + (to - from);
    let have = st.rows;
    let rows = rows::push(
        chunks,
        have,
        Kind::Normal,
        making::narrow(at),
        making::narrow(bytes),
        start,
        end,
    );
    append(st, rows, words, from, to, text)
}

// One name more.
pub fn counted(st: Progress) -> Progress
    requires { Bounded st × (st.names + 1 ≤ most_names) }
    ensures names_value { (result.names ≡ st.names + 1) × Bounded result }
    ensures has { (ps : List Chunk) (b₀ t₀ b t : List ℕ) → Has ps b₀ t₀ st b t → Has ps b₀ t₀ result b t }
{
    let rows = st.rows;
    Progress {
        rows,
        bytes: st.bytes,
        names: st.names + 1,
        over: st.over,
    }
}

// Whether there is room for what was counted.
pub fn fits(st: Progress, chunks: &[u32], text: &[u8]) -> bool
    requires { Bounded st }
    ensures { (ps : List Chunk) (b₀ t₀ b t : List ℕ) → Has ps b₀ t₀ st b t
        → (result ≡ fits_of (flatten ps) chunks.now text.now) × (result ≡ true → small (flatten ps) ≡ true) }
{
    let rows = st.rows;
    !st.over & (rows.n <= chunks.len() / 5) & (st.bytes <= text.len())
}

// Copies the rows and the text of a value from the small room, where they were written, to another room.
pub fn copy_out(st: Progress, few: &[u32], short: &[u8], chunks: &mut [u32], text: &mut [u8])
    requires { (st.rows.n * 5 ≤ length few.now) × (st.rows.n * 5 ≤ length chunks.old) ×
        (st.bytes ≤ length short.now) × (st.bytes ≤ length text.old) × Bounded st }
    ensures chunks_after { chunks.new ≡ take (st.rows.n * 5) few.now ++ drop (st.rows.n * 5) chunks.old }
    ensures text_after { text.new ≡ sets text.old 0 (part short.now 0 st.bytes) }
{
    let rows = st.rows;
    let bytes = st.bytes;
    form::copy_numbers(few, rows.n * 5, chunks);
    put::copy(short, 0, bytes, text, 0);
}

// What was counted, as an answer.
pub fn answer(st: Progress) -> Chunks
    ensures { result ≡ answer_of st }
{
    let rows = st.rows;
    Chunks {
        rows: rows.n,
        bytes: st.bytes,
        names: st.names,
    }
}
