// The row check: whether numbers are rows of the readings [01:Rows and their packing]. It does not test file order.
// mask.rt judges a row after the same rules, for the loops of packing and unpacking.
//
// Kinds come in as any numbers, so they are compared as numbers: 0 preamble, 1 entry, 2 entry type, 3 key, 4 field name, 5 value, 6 literal,
// 7 name, 8 definition name, 9 damage, 10 cause. The proofs tie each to `kind_of`, the one definition of a kind's number.
ghost use Rattle.std.specs.Prelude.{◌≡◌, cond, ◌≤◌, length, drop};
ghost use Rattle.row.specs.Rules.{is_detail, begun, next, wrong};
ghost use Rattle.row.specs.Numbers.{await_of, state_of, whole_of, or_wrong, found_of, rows_of, check_of};

use crate::fault::Reason;

// What may come next, with the words of specs/Rules.antt. The flag says that a field may follow.
#[derive(Clone, Copy)]
pub enum State {
    Part(bool),
    Type,
    Key,
    Value(bool),
    Chunk(bool),
    Chunks(bool),
    Cause,
    Wrong,
}

// Whether a row of the kind may have the detail. Kinds are numbers in this file, because any number may stand where a row has its kind.
pub fn is_detail(kind: u32, detail: u32) -> bool
    ensures { result ≡ is_detail kind detail }
{
    if kind == 10 {
        return (2 <= detail) & (detail <= 10);
    }
    detail == 0
}

fn or_wrong(fits: bool, state: State) -> State
    ensures { result ≡ or_wrong fits state }
{
    if fits {
        return state;
    }
    State::Wrong
}

// A part of the sequence begins, or the next field of an entry.
fn begun(field: bool, kind: u32) -> State
    ensures { result ≡ state_of (begun field kind) }
{
    match kind {
        0 => State::Part(false),
        1 => State::Type,
        4 => or_wrong(field, State::Value(true)),
        8 => State::Value(false),
        9 => State::Cause,
        _ => State::Wrong,
    }
}

fn next(state: State, kind: u32) -> State
    ensures { result ≡ state_of (next (await_of state) kind) }
{
    match state {
        State::Part(field) => begun(field, kind),
        State::Type => or_wrong(kind == 2, State::Key),
        State::Key => or_wrong(kind == 3, State::Part(true)),
        State::Value(field) => or_wrong(kind == 5, State::Chunk(field)),
        State::Chunk(field) => or_wrong((kind == 6) | (kind == 7), State::Chunks(field)),
        State::Chunks(field) => {
            if (kind == 6) | (kind == 7) {
                return State::Chunks(field);
            }
            begun(field, kind)
        }
        State::Cause => or_wrong(kind == 10, State::Part(false)),
        State::Wrong => State::Wrong,
    }
}

// What may come after a row of the kind with the detail.
fn step(state: State, kind: u32, detail: u32) -> State
    ensures { result ≡ state_of (cond (is_detail kind detail) (next (await_of state) kind) wrong) }
{
    if is_detail(kind, detail) {
        return next(state, kind);
    }
    State::Wrong
}

// Whether the sequence may end.
fn is_whole(state: State) -> bool
    ensures { result ≡ whole_of state }
{
    matches!(state, State::Part(_) | State::Chunks(_))
}

// The place after the row from number i on, if that is a value row.
fn value_row(rows: &[u32], i: usize) -> Option<usize>
    requires { i ≤ length rows.now }
    ensures { result ≡ found_of i (rows_of (drop i rows.now)) }
{
    if rows.len() - i < 4 {
        return None;
    }
    if (rows[i] == 5) & (rows[i + 1] == 0) {
        return Some(i + 4);
    }
    None
}

// Whether the numbers are rows, a whole count of them, in 01's sequence and with 01's details. A turn takes a row, or a name's row and its value's:
// 01 asks for the `let .. else`.
pub fn check(rows: &[u32]) -> Result<(), Reason>
    ensures { result ≡ check_of rows.now }
{
    if rows.len() % 4 != 0 {
        return Err(Reason::BadRows);
    }
    let mut state = State::Part(false);
    let mut i = 0;
    while i < rows.len() {
        state = step(state, rows[i], rows[i + 1]);
        i += 4;
        let State::Value(field) = state else {
            continue;
        };
        // After the name of a field or a definition.
        let Some(next) = value_row(rows, i) else {
            return Err(Reason::BadRows);
        };
        state = State::Chunk(field);
        i = next;
    }
    if is_whole(state) {
        return Ok(());
    }
    Err(Reason::BadRows)
}
