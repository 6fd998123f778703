// Month words: the search for one.
ghost use Rattle.std.specs.Prelude.{◌≡◌, true};
ghost use Rattle.resolve.specs.Checks.{are_months};
ghost use Rattle.values.specs.Uses.{MonthFound};

use lookup::plain;

// Where the text of a month word stands in the lent bytes, if there is such a word: of equal words the first counts.
pub fn find_month(months: &[u32], words: &[u8], name: &[u8]) -> Option<(usize, usize)>
    requires { are_months months.now words.now ≡ true }
    ensures { MonthFound months.now words.now name.now result }
{
    let (all, _) = months.as_chunks::<4>();
    for &[from, to, start, end] in all {
        if plain::equal(&words[from as usize..to as usize], name) {
            return Some((start as usize, end as usize));
        }
    }
    None
}
