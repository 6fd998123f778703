// The elements of a value and its names, after `parse_field` and `resolve_abbreviation` of resolve.rs: `value` and `name` call each other, with
// the depth of names falling.
ghost use Rattle.std.specs.Prelude.{◌≡◌, ◌+◌, ◌-◌, ◌/◌, ◌%◌, ◌≤◌, length, take, drop};
ghost use Rattle.row.specs.declared.form.Kind.TheVariants as kind;
ghost use Rattle.row.specs.Row.{row};
ghost use Rattle.row.specs.Numbers.{rows_of};
ghost use Rattle.row.specs.Limits.{most_open};
ghost use Rattle.resolve.specs.Progress.{Bounded, SaysRun, BoundedWent};
ghost use Rattle.values.specs.Field as field;
ghost use Rattle.values.specs.Field.{meaning_of, on_path};
ghost use Rattle.values.specs.Uses.{Means, RowInside, limits as limits_of, allowed_of, first_element, only_at, value_from, lent_in, IndexOf, ReadyValue};

use crate::months;
use crate::resolver::Resolver;
use lookup::index;
use resolve::progress;
use resolve::progress::Progress;
use row::fault::{Fault, Reason};
use row::form::{LITERAL, NAME};
use row::limits::{MOST_NAMES, MOST_OPEN};
use text::scanner;

// What a name means: the definition in a row, or a month word with its text.
#[derive(Clone, Copy)]
pub enum Meaning {
    Definition(usize),
    Month { from: usize, to: usize },
}

// An element of a value, and where it stands in the file.
#[derive(Clone, Copy)]
pub enum Element {
    Literal { start: usize, end: usize },
    Name { start: usize, end: usize },
}

// Whether a definition is one of those that are being resolved.
fn on_path(path: &[usize], used: usize, i: usize) -> bool
    requires { used ≤ length path.now }
    ensures { result ≡ on_path i (take used path.now) }
{
    path[..used].contains(&i)
}

// Whether one more name may be opened: there is one left to open, and the number of names is below 01's limit.
fn limits(left: usize, names: usize) -> Result<(), Reason>
    ensures { result ≡ limits_of left names }
{
    if left == 0 {
        return Err(Reason::TooDeep);
    }
    if MOST_NAMES <= names {
        return Err(Reason::TooManyNames);
    }
    Ok(())
}

// Whether a name may be opened. At one use the refusals come in this order: unknown, cyclic, too deep, too many names.
fn may_open(m: Option<Meaning>, path: &[usize], left: usize, names: usize) -> Result<(), Reason>
    requires { (length path.now ≡ most_open) × (left ≤ most_open) }
    ensures { result ≡ allowed_of m (take (most_open - left) path.now) left names }
{
    match m {
        Some(Meaning::Definition(i)) => {
            if on_path(path, MOST_OPEN - left, i) {
                return Err(Reason::Cyclic);
            }
            limits(left, names)
        }
        Some(Meaning::Month { from: _, to: _ }) => limits(left, names),
        None => Err(Reason::UnknownAbbreviation),
    }
}

// The row from number i on, if it is an element of a value.
pub fn element_at(rows: &[u32], i: usize) -> Option<Element>
    requires { i ≤ length rows.now + 8 }
    ensures { result ≡ first_element (rows_of (drop i rows.now)) }
{
    if rows.len() < i + 4 {
        return None;
    }
    // This is of any numbers, and not of rows that were checked, so the kind is compared as a number.
    let kind = rows[i];
    let start = rows[i + 2] as usize;
    let end = rows[i + 3] as usize;
    if kind == LITERAL {
        return Some(Element::Literal { start, end });
    }
    if kind == NAME {
        return Some(Element::Name { start, end });
    }
    None
}

// Where the literal stands in the file that is a whole value, whose elements begin with number i of the rows; nothing, where the value has a name,
// several elements or none.
pub fn only_literal(rows: &[u32], i: usize) -> Option<(usize, usize)>
    requires { i ≤ length rows.now + 4 }
    ensures { result ≡ only_at rows.now i }
{
    let Some(Element::Literal { start, end }) = element_at(rows, i) else {
        return None;
    };
    if element_at(rows, i + 4).is_some() {
        return None;
    }
    Some((start, end))
}

impl<'a, 'b> Resolver<'a, 'b> {
    // What the name means, if anything, that stands in the file from `start` to `end`. The month list is asked only if there is no definition.
    fn meaning_of(&self, start: usize, end: usize) -> Option<Meaning>
        requires { IndexOf self.now }
        ensures means { Means self.now.words.now (meaning_of (lent_in self.now) (row kind.Name start end)) result }
        ensures row_inside { RowInside (length self.now.rows.now / 4) result }
    {
        if let Some(i) = index::find(self.file, self.rows, self.heads, self.next, start, end) {
            return Some(Meaning::Definition(i));
        }
        let (from, to) = months::find_month(
            self.months,
            self.words,
            scanner::from(self.file, start, end),
        )?;
        Some(Meaning::Month { from, to })
    }

    // The elements of a value from number `at` of the rows on, with `left` names left to open.
    #[cycle(name_value)]
    pub fn value(
        &self,
        verb: bool,
        left: usize,
        path: &mut [usize],
        at: usize,
        first: Progress,
        scratch: &mut [u8],
        chunks: &mut [u32],
        text: &mut [u8],
    ) -> Result<Progress, Fault>
        requires { ReadyValue self.now scratch.old path.old left ×
            Bounded first × (at % 4 ≡ 0) × (at ≤ length self.now.rows.now + 8) }
        ensures says_run { SaysRun (value_from (lent_in self.now)
            verb left (take (most_open - left) path.old) (rows_of (drop at self.now.rows.now)) first.names) first
            chunks.old text.old result chunks.new text.new }
        ensures bounded_went { BoundedWent result × (take (most_open - left) path.new ≡ take (most_open - left) path.old) }
    {
        let mut st = first;
        let mut i = at;
        // A `for` over the rows behind would have to leave off at the first that is no element, which `element_at` says.
        while let Some(e) = element_at(self.rows, i) {
            i += 4;
            match e {
                Element::Literal { start, end } => {
                    st = progress::literal(
                        &self.file[start..end],
                        start,
                        verb,
                        st,
                        scratch,
                        chunks,
                        text,
                        self.tables,
                    )?;
                }
                Element::Name { start, end } => {
                    st = self.name(verb, left, path, start, end, st, scratch, chunks, text)?;
                }
            }
        }
        Ok(st)
    }

    // A name that is used in the file from `start` to `end`.
    #[cycle(name_value)]
    fn name(
        &self,
        verb: bool,
        left: usize,
        path: &mut [usize],
        start: usize,
        end: usize,
        st: Progress,
        scratch: &mut [u8],
        chunks: &mut [u32],
        text: &mut [u8],
    ) -> Result<Progress, Fault>
        requires { ReadyValue self.now scratch.old path.old left ×
            Bounded st × (start ≤ 4294967295) × (end ≤ 4294967295) }
        ensures says_run { SaysRun (field.name (lent_in self.now)
            verb left (take (most_open - left) path.old) (row kind.Name start end) st.names) st
            chunks.old text.old result chunks.new text.new }
        ensures bounded_went { BoundedWent result × (take (most_open - left) path.new ≡ take (most_open - left) path.old) }
    {
        let m = self.meaning_of(start, end);
        if let Err(reason) = may_open(m, path, left, st.names) {
            return Err(Fault { reason, start, end });
        }
        let t = progress::counted(st);
        match m {
            Some(Meaning::Definition(i)) => {
                path[MOST_OPEN - left] = i;
                self.value(verb, left - 1, path, i * 4 + 8, t, scratch, chunks, text)
            }
            Some(Meaning::Month { from, to }) => Ok(progress::month(
                self.words,
                from,
                to,
                start as u32,
                end as u32,
                t,
                chunks,
                text,
            )),
            None => Ok(t),
        }
    }
}
