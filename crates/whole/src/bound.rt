// How much a value can come to at most, told from the places of its literals and of those of the definitions. That is little work beside
// resolving it.
ghost use Rattle.std.specs.Prelude.{ℕ, ◌+◌, ◌-◌, ◌/◌, ◌≤◌, List, length, drop};
ghost use Rattle.row.specs.Numbers.{rows_of};
ghost use Rattle.resolve.specs.Checks.{lent_of};
ghost use Rattle.whole.specs.Bounds.{ElementMost, FewMost, MostOf, SmallMost, Either, TextMost, MonthsMost, UseAtMost};

use literal::rows::MOST_NUMBER;
use row::form::DEFINITION_NAME;
use values::elements;
use values::elements::Element;

// So many chunk rows and bytes of text at most. Or nothing is known: names are used of which nothing is known, or the sums are more than can be
// written.
#[derive(Clone, Copy)]
pub struct Most {
    pub rows: usize,
    pub bytes: usize,
}

// What an element comes to at most, where a use of a name comes to at most `name`. A literal comes to at most one chunk more than it has bytes, and
// its text has at most twice its bytes.
fn most_of_element(e: Element, name: Option<Most>) -> Option<Most>
    requires { SmallMost name }
    ensures most { ElementMost e name result }
    ensures small { FewMost result }
{
    match e {
        Element::Name { start: _, end: _ } => name,
        Element::Literal { start, end } => {
            if (end < start) | (MOST_NUMBER < end) {
                return None;
            }
            Some(Most {
                rows: end - start + 1,
                bytes: 2 * (end - start),
            })
        }
    }
}

// What the value of row i comes to at most, where a use of a name comes to at most `name`.
pub fn most_of(rows: &[u32], i: usize, name: Option<Most>) -> Option<Most>
    requires { (i ≤ length rows.now / 4) × SmallMost name }
    ensures { MostOf name (drop (i + 1) (rows_of rows.now)) result × SmallMost result }
{
    let mut n = 0;
    let mut m = 0;
    let mut at = i * 4 + 4;
    // A `for` over the rows behind would have to leave off at the first that is no element, which `element_at` says.
    while let Some(e) = elements::element_at(rows, at) {
        at += 4;
        let one = most_of_element(e, name)?;
        n += one.rows;
        m += one.bytes;
        if (MOST_NUMBER < n) | (MOST_NUMBER < m) {
            return None;
        }
    }
    Some(Most { rows: n, bytes: m })
}

// A bound for what comes to no more than `a` or no more than `b`.
fn either(a: Option<Most>, b: Option<Most>) -> Option<Most>
    ensures { Either a b result }
{
    let a = a?;
    let b = b?;
    Some(Most {
        rows: a.rows.max(b.rows),
        bytes: a.bytes.max(b.bytes),
    })
}

// A month word comes to one chunk with its text.
fn most_of_text(from: usize, to: usize) -> Option<Most>
    ensures { TextMost (to - from) result × SmallMost result }
{
    if (to < from) | (MOST_NUMBER < to) {
        return None;
    }
    Some(Most {
        rows: 1,
        bytes: to - from,
    })
}

// What any month word comes to at most.
fn most_of_months(months: &[u32]) -> Option<Most>
    ensures { MonthsMost months.now result × SmallMost result }
{
    let mut most = Some(Most { rows: 0, bytes: 0 });
    let (all, _) = months.as_chunks::<4>();
    for month in all {
        most = either(most, most_of_text(month[2] as usize, month[3] as usize));
    }
    most
}

// What a use of any name comes to at most. Nothing is known of it where a definition uses names.
pub fn most_of_names(rows: &[u32], months: &[u32]) -> Option<Most>
    ensures { (file words : List ℕ) → UseAtMost (lent_of file rows.now months.now words) result }
{
    let mut most = most_of_months(months);
    for i in 0..rows.len() / 4 {
        if rows[i * 4] != DEFINITION_NAME {
            continue;
        }
        most = either(most, most_of(rows, i + 1, None));
        if most.is_none() {
            return None;
        }
    }
    most
}
