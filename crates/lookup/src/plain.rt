// The plain search for the definition that counts: from the last row to the first.
ghost use Rattle.std.specs.Prelude.{◌≡◌, ◌/◌, ◌<◌, length};
ghost use Rattle.row.specs.Numbers.{rows_of};
ghost use Rattle.text.specs.SameBytes.{same_bytes};
ghost use Rattle.lookup.specs.Names.{is_named, row_no, last_named};

use row::form::DEFINITION_NAME;
use text::scanner;

// Not `a == b`: by that the search along a chain of thousands of names took 1.4 times as long.
pub fn equal(a: &[u8], b: &[u8]) -> bool
    ensures { result ≡ same_bytes a.now b.now }
{
    a.len() == b.len() && a.iter().zip(b).all(|(x, y)| x == y)
}

// Row i is a definition of the name. Any two numbers are a span: what lies past the file is left out, and a reversed span is empty.
pub fn is_named(file: &[u8], rows: &[u32], i: usize, name: &[u8]) -> bool
    requires { i < length rows.now / 4 }
    ensures { result ≡ is_named file.now name.now (row_no (rows_of rows.now) i) }
{
    let at = i * 4;
    if rows[at] != DEFINITION_NAME {
        return false;
    }
    equal(
        scanner::from(file, rows[at + 2] as usize, rows[at + 3] as usize),
        name,
    )
}

pub fn find(file: &[u8], rows: &[u32], name: &[u8]) -> Option<usize>
    ensures { result ≡ last_named file.now name.now (rows_of rows.now) }
{
    for i in (0..rows.len() / 4).rev() {
        if is_named(file, rows, i, name) {
            return Some(i);
        }
    }
    None
}
