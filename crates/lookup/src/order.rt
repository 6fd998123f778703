// The definitions in the order of their names' bytes, and the search among them by halving.
//
// An author can choose names that all fall into one bucket, because FNV has no key. Then the definitions are put in order instead: sorted
// by merging, they cost in proportion to their number and its logarithm, whatever the names are.
ghost use Rattle.std.specs.Prelude.{◌≡◌, true, ◌+◌, ◌/◌, ◌≤◌, length, take, drop, leb};
ghost use Rattle.row.specs.Numbers.{rows_of};
ghost use Rattle.lookup.specs.Names.{name_of, row_no, last_named};
ghost use Rattle.lookup.specs.RowIndex.{fits};
ghost use Rattle.lookup.specs.Order.{order_of, comes, merged, sorted, definitions, in_order, left_first, Ordered};

use crate::plain;
use row::form;
use row::form::DEFINITION_NAME;
use std::cmp::Ordering;
use text::scanner;

// How two texts stand in the order of their bytes: the first byte in which they differ decides, and a text comes before longer texts that begin
// with it.
#[tactic(auto, using(crate::proofs::bytes::Compared::order_cmp))]
fn compare(a: &[u8], b: &[u8]) -> Ordering
    ensures { result ≡ order_of a.now b.now }
{
    a.cmp(b)
}

// A file and its rows, of which the definitions are put in order.
#[derive(Clone, Copy)]
struct Definitions<'a> {
    file: &'a [u8],
    rows: &'a [u32],
}

impl<'a> Definitions<'a> {
    // The name of row i, which is empty past the last row.
    fn name(self, i: usize) -> &'a [u8]
        ensures { result.now ≡ name_of self.entry.file.now (row_no (rows_of self.entry.rows.now) i) }
    {
        if self.rows.len() / 4 <= i {
            return scanner::from(self.file, 0, 0);
        }
        let at = i * 4;
        scanner::from(
            self.file,
            self.rows[at + 2] as usize,
            self.rows[at + 3] as usize,
        )
    }

    // Whether row i comes before row j: by its name, and of two definitions of one name by its number.
    fn precedes(self, i: usize, j: usize) -> bool
        ensures { result ≡ comes self.entry.file.now (rows_of self.entry.rows.now) i j }
    {
        match compare(self.name(i), self.name(j)) {
            Ordering::Less => true,
            Ordering::Equal => i <= j,
            Ordering::Greater => false,
        }
    }

    // Whether the next row of a and b merged is that of a.
    fn takes_left(self, a: &[u32], i: usize, b: &[u32], j: usize) -> bool
        ensures { result ≡ left_first (comes self.entry.file.now (rows_of self.entry.rows.now)) (drop i a.now) (drop j b.now) }
    {
        if b.len() <= j {
            return true;
        }
        if a.len() <= i {
            return false;
        }
        self.precedes(a[i] as usize, b[j] as usize)
    }

    // Two lists of rows in order become one. Each turn moves one of two places, which `for` would not count.
    fn merge(self, a: &[u32], b: &[u32], out: &mut [u32])
        requires { length a.now + length b.now ≤ length out.old }
        ensures { take (length a.now + length b.now) out.new ≡
            merged (comes self.entry.file.now (rows_of self.entry.rows.now)) a.now b.now }
    {
        let mut i = 0;
        let mut j = 0;
        while i + j < a.len() + b.len() {
            if self.takes_left(a, i, b, j) {
                out[i + j] = a[i];
                i += 1;
            } else {
                out[i + j] = b[j];
                j += 1;
            }
        }
    }

    // The two halves of a list, each in order, become one.
    fn merge_halves(self, a: &[u32], h: usize, out: &mut [u32])
        requires { (h ≤ length a.now) × (length a.now ≤ length out.old) }
        ensures { take (length a.now) out.new ≡
            merged (comes self.entry.file.now (rows_of self.entry.rows.now)) (take h a.now) (drop h a.now) }
    {
        self.merge(&a[..h], &a[h..], out)
    }

    // Puts rows in order: each half by itself, and then the two together. 32 halvings are enough for any rows that are numbered by 32 bits.
    // Not the library's sort, because `in_order` of specs/Order.antt is by merging, and the fault `left_row_misplaced` is of `merge`.
    fn sort(self, a: &mut [u32], spare: &mut [u32], depth: usize)
        requires { length a.old ≤ length spare.old }
        ensures { a.new ≡ sorted (comes self.entry.file.now (rows_of self.entry.rows.now)) depth a.old }
    {
        if (a.len() < 2) | (depth == 0) {
            return;
        }
        let h = a.len() / 2;
        self.sort(&mut a[..h], spare, depth - 1);
        self.sort(&mut a[h..], spare, depth - 1);
        self.merge_halves(a, h, spare);
        form::copy_numbers(spare, a.len(), a);
    }
}

// The numbers of the definition rows, from the first on; and how many there are.
fn gather(rows: &[u32], next: &mut [u32]) -> usize
    requires { (length rows.now / 4 ≤ length next.old) × (length rows.now / 4 ≤ 2147483647) }
    ensures { (result ≡ length (definitions (rows_of rows.now))) × (take result next.new ≡ definitions (rows_of rows.now)) }
{
    let mut m = 0;
    for i in 0..rows.len() / 4 {
        if rows[i * 4] == DEFINITION_NAME {
            next[m] = i as u32;
            m += 1;
        }
    }
    m
}

// Puts the definitions in order at the beginning of `next`, with `heads` to work in, if that has a number for each of them. The first number
// of `heads` then tells how many there are. It is greater than the number of rows, and the head of a bucket never is.
pub fn fill(file: &[u8], rows: &[u32], heads: &mut [u32], next: &mut [u32]) -> bool
    requires { fits (length rows.now / 4) (length heads.old) (length next.old) ≡ true }
    ensures value { result ≡ leb (length (definitions (rows_of rows.now))) (length heads.old) }
    ensures ordered { result ≡ true → Ordered file.now rows.now heads.new next.new }
{
    let m = gather(rows, next);
    if heads.len() < m {
        return false;
    }
    Definitions { file, rows }.sort(&mut next[..m], heads, 32);
    heads[0] = (rows.len() / 4 + 1 + m) as u32;
    true
}

// The last definition of a name among those in order.
pub fn search(file: &[u8], rows: &[u32], order: &[u32], wanted: &[u8]) -> Option<usize>
    requires { (order.now ≡ in_order file.now (rows_of rows.now)) × (length rows.now / 4 ≤ 2147483647) }
    ensures { result ≡ last_named file.now wanted.now (rows_of rows.now) }
{
    let all = Definitions { file, rows };
    let end = order.partition_point(|i| compare(all.name(*i as usize), wanted).is_le());
    let last = end.checked_sub(1)?;
    let i = order[last] as usize;
    plain::is_named(file, rows, i, wanted).then_some(i)
}
