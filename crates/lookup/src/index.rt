// The index of a file's definitions, in lent numbers, and the search by it. It has one of two forms.
//
// Chains: of the definitions of a name only the last is in a chain, so that many definitions of one name make none longer. `heads` has a
// number for each bucket: one more than the number of the first row whose name falls into the bucket, or 0. `next` has a number for each row:
// for a row in a chain, one more than the number of the next row of its bucket, or 0.
//
// In order, where chains would be long: `next` begins with the numbers of all definitions in the order of their names (`order`). The first
// number of `heads` then tells how many there are, and is greater than any that a chain has.
ghost use Rattle.std.specs.Prelude.{◌≡◌, ◌+◌, ◌/◌, ◌%◌, ◌<◌, true, length, replicate};
ghost use Rattle.text.specs.Scan.{part};
ghost use Rattle.row.specs.Numbers.{rows_of};
ghost use Rattle.lookup.specs.Fnv.{hash_of};
ghost use Rattle.lookup.specs.Names.{last_named};
ghost use Rattle.lookup.specs.RowIndex.{fits, Indexed, IndexedFrom, Built, Follows, Links, last_from};

use crate::{hash, order, plain};
use row::form::DEFINITION_NAME;
use text::scanner;

// Whether the lent numbers hold an index of n rows: there is a bucket, a number for each row, and each row's number fits.
fn has_room(n: usize, heads: usize, next: usize) -> bool
    ensures { result ≡ fits n heads next }
{
    (0 < heads) & (n <= next) & (n <= 2147483647)
}

// Sets every number to 0.
pub fn clear(heads: &mut [u32])
    ensures { heads.new ≡ replicate (length heads.old) 0 }
{
    heads.fill(0);
}

// Which of `size` buckets a name falls into.
fn bucket(name: &[u8], size: usize) -> usize
    requires { 0 < size }
    ensures { (result ≡ hash_of name.now % size) × (result < size) }
{
    hash::fnv1a(name) as usize % size
}

// The chain has more rows than are to be looked at.
#[derive(Clone, Copy)]
struct TooLong;

// The rows of a file with their index.
#[derive(Clone, Copy)]
struct Index<'a> {
    file: &'a [u8],
    rows: &'a [u32],
    heads: &'a [u32],
    next: &'a [u32],
}

impl<'a> Index<'a> {
    // The last definition of the name among the rows from row `from` on, whose index this is, if at most `most` rows are looked at. b is the
    // name's bucket. A chain ends with 0; all other numbers in it are greater than `from`. With `for k in 0..most` the end of the chain would
    // have to be asked for in two places.
    fn follow(
        self,
        from: usize,
        b: usize,
        name: &[u8],
        most: usize,
    ) -> Result<Option<usize>, TooLong>
        requires indexed_from { IndexedFrom self.file.now self.rows.now from self.heads.now self.next.now }
        requires b_value { (b ≡ hash_of name.now % length self.heads.now) × (b < length self.heads.now) }
        ensures { Follows (last_from self.entry.file.now name.now (rows_of self.entry.rows.now) from) (length self.entry.rows.now / 4) most result }
    {
        let mut at = self.heads[b] as usize;
        let mut k = 0;
        while from < at {
            if most <= k {
                return Err(TooLong);
            }
            let i = at - 1;
            if plain::is_named(self.file, self.rows, i, name) {
                return Ok(Some(i));
            }
            at = self.next[i] as usize;
            k += 1;
        }
        Ok(None)
    }

    // The last definition of a name. The answer does not depend on how much is lent: where the index has no room, the search is plain.
    fn find_name(self, name: &[u8]) -> Option<usize>
        requires { Indexed self.file.now self.rows.now self.heads.now self.next.now }
        ensures { result ≡ last_named self.entry.file.now name.now (rows_of self.entry.rows.now) }
    {
        if !has_room(self.rows.len() / 4, self.heads.len(), self.next.len()) {
            return plain::find(self.file, self.rows, name);
        }
        let n = self.rows.len() / 4;
        let mark = self.heads[0] as usize;
        if n < mark {
            let m = mark - n - 1;
            return order::search(self.file, self.rows, &self.next[..m], name);
        }
        let b = bucket(name, self.heads.len());
        self.follow(0, b, name, n + 1).unwrap_or(None)
    }
}

// Takes row i into the index of the rows after it, if it is a definition and no later row defines its name. Where its chain has more than
// `most` rows there is no index. `Index` only lends the numbers to be read, and here they are written.
fn link(
    file: &[u8],
    rows: &[u32],
    i: usize,
    heads: &mut [u32],
    next: &mut [u32],
    most: usize,
) -> Result<(), TooLong>
    requires { IndexedFrom file.now rows.now (i + 1) heads.old next.old }
    ensures { Links file.now rows.now i most result heads.new next.new }
{
    let at = i * 4;
    if rows[at] != DEFINITION_NAME {
        return Ok(());
    }
    let name = scanner::from(file, rows[at + 2] as usize, rows[at + 3] as usize);
    let b = bucket(name, heads.len());
    let later = Index {
        file,
        rows,
        heads,
        next,
    }
    .follow(i + 1, b, name, most)?;
    if later.is_none() {
        next[i] = heads[b];
        heads[b] = (i + 1) as u32;
    }
    Ok(())
}

// Makes the chains, from the last row to the first, unless one has more than `most` rows.
fn chain(
    file: &[u8],
    rows: &[u32],
    heads: &mut [u32],
    next: &mut [u32],
    most: usize,
) -> Result<(), TooLong>
    requires { fits (length rows.now / 4) (length heads.old) (length next.old) ≡ true }
    ensures { Links file.now rows.now 0 most result heads.new next.new }
{
    clear(heads);
    for i in (0..rows.len() / 4).rev() {
        link(file, rows, i, heads, next, most)?;
    }
    Ok(())
}

// The longest chain that is followed where the definitions can be put in order instead. With a bucket for every second row, names that are
// not made for it have chains of one or two rows.
const LONGEST: usize = 16;

// Makes the index. Where chains grow long, because names were made to fall into one bucket or there are few buckets, the definitions are
// put in order instead; only with too few numbers for that the chains are as long as they get. Where the lent numbers are too few for any
// index they stay as they were, and `find` searches plainly.
pub fn build(file: &[u8], rows: &[u32], heads: &mut [u32], next: &mut [u32])
    ensures { Built file.now rows.now heads.old next.old heads.new next.new }
{
    let n = rows.len() / 4;
    if !has_room(n, heads.len(), next.len()) {
        return;
    }
    if chain(file, rows, heads, next, LONGEST).is_ok() {
        return;
    }
    if order::fill(file, rows, heads, next) {
        return;
    }
    let _ = chain(file, rows, heads, next, n + 1);
}

// The last definition of the name that stands in the file from `start` to `end`.
pub fn find(
    file: &[u8],
    rows: &[u32],
    heads: &[u32],
    next: &[u32],
    start: usize,
    end: usize,
) -> Option<usize>
    requires { Indexed file.now rows.now heads.now next.now }
    ensures { result ≡ last_named file.now (part file.now start end) (rows_of rows.now) }
{
    Index {
        file,
        rows,
        heads,
        next,
    }
    .find_name(scanner::from(file, start, end))
}
