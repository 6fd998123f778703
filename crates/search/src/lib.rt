// Search by halving, for the tables of `compose` and `casing`.
#![tactic(auto)]

ghost use Rattle.std.specs.Prelude.{◌≡◌, ◌/◌, ◌≤◌, length};
ghost use Rattle.search.specs.Halving.{place_of};

// How many rows of a table t, `width` numbers to a row, come before the key a, b. A row's key is its first two numbers, and the keys rise; among
// other numbers it is what the same search finds. That is why the loop is written out: `partition_point` halves in another way, and promises
// nothing of numbers that do not rise; and the tables are lent to callers as flat numbers.
pub fn place(t: &[u32], width: usize, a: u32, b: u32) -> usize
    requires { 2 ≤ width }
    ensures { (result ≡ place_of width t.now a b) × (result ≤ length t.now / width) }
{
    let mut lo: usize = 0;
    let mut hi: usize = t.len() / width;
    while lo < hi {
        let mid = lo + (hi - lo) / 2;
        let i = mid * width;
        let is_low = (t[i], t[i + 1]) < (a, b);
        if is_low {
            lo = mid + 1;
        } else {
            hi = mid;
        }
    }
    lo
}
