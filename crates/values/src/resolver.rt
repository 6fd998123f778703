// What values are resolved from.
ghost use Rattle.std.specs.Prelude.{◌≡◌, ◌≤◌, true, length};
ghost use Rattle.row.specs.Limits.{most_bytes};
ghost use Rattle.resolve.specs.Checks.{are_lent};

use command::tables::Tables;

// A file and its rows, month words with their texts, the index of the names, and the tables of commands and of accents. Whoever makes one has
// checked what is lent, so that nothing is checked again.
#[derive(Clone, Copy)]
pub struct Resolver<'a, 'b> {
    pub file: &'a [u8],
    pub rows: &'a [u32],
    pub months: &'a [u32],
    pub words: &'a [u8],
    pub heads: &'a [u32],
    pub next: &'a [u32],
    pub tables: Tables<'b>,
    ghost short: { length file.now ≤ most_bytes },
    ghost lent: { are_lent file.now rows.now months.now words.now ≡ true },
}
