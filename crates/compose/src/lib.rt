// Canonical composition of a letter and a mark, after Unicode: e and U+0301 compose to U+00E9.
//
// `compose` makes the table anew for its one question, which costs 7 KB of moves. Whoever asks more than once makes it once, by `table`, and
// hands it down to `find`.
//
// No public function has a `requires`: each is total on any numbers, and `find` on any lent table too.
#![tactic(auto)]

mod composites;

ghost use Rattle.std.specs.Prelude.{◌≡◌};
ghost use Rattle.compose.specs.Lookup.{numbers, lookup};
ghost use Rattle.compose.specs.Composites.{composites};
ghost use Rattle.compose.specs.Halving.{halved};

// The table: letter, mark and composed character of each row, one after the other. It is flat numbers and not rows, because `find` answers for any
// numbers that it is lent.
pub fn table() -> [u32; 1818]
    ensures { result ≡ numbers composites }
{
    composites::COMPOSITES
}

// What a letter and a mark compose to by a table t, searched by halving. With the table of `table` it is what `compose` answers; with other
// numbers, what the same search finds in them.
pub fn find(t: &[u32], letter: u32, mark: u32) -> Option<u32>
    ensures { result ≡ halved t.now letter mark }
{
    let k = search::place(t, 3, letter, mark);
    if t.len() / 3 <= k {
        return None;
    }
    let i = k * 3;
    if (t[i] == letter) & (t[i + 1] == mark) {
        Some(t[i + 2])
    } else {
        None
    }
}

// What a letter and a mark compose to.
pub fn compose(letter: u32, mark: u32) -> Option<u32>
    ensures { result ≡ lookup composites letter mark }
{
    let t = table();
    find(&t, letter, mark)
}
