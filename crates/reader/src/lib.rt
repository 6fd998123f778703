// The reader of 01, which keeps the lent file together with its place [01:Matching forms to places], after `Scanner` of the Rust.
//
// The functions over the struct are few and thin: each takes the struct apart and calls one of `text::scanner` on the slice and the number. What
// other crates call has plain parameters.
#![tactic(auto)]

ghost use Rattle.std.specs.Prelude.{◌≡◌};
ghost use Rattle.text.specs.Scan.{see, next_of, skip, fails, Inside, Ahead};

use text::class::Test;
use text::scanner;

#[derive(Clone, Copy)]
pub struct Reader<'a> {
    pub file: &'a [u8],
    pub at: usize,
}

fn new<'a>(file: &'a [u8], at: usize) -> Reader<'a>
    ensures { (result.file ≡ file.entry) × (result.at ≡ at) }
{
    Reader { file, at }
}

fn place<'a>(r: Reader<'a>) -> usize
    ensures { result ≡ r.entry.at }
{
    r.at
}

fn peek<'a>(r: Reader<'a>) -> Option<(u32, usize)>
    ensures { (result ≡ see r.entry.file.now r.entry.at) × Inside r.entry.file.now r.entry.at result }
{
    scanner::peek(r.file, r.at)
}

fn eat<'a>(r: Reader<'a>) -> Reader<'a>
    ensures { (result.file ≡ r.entry.file) × (result.at ≡ next_of r.entry.at (see r.entry.file.now r.entry.at)) ×
        Ahead r.entry.file.now r.entry.at result.at }
{
    let at = scanner::eat(r.file, r.at);
    Reader { file: r.file, at }
}

fn eat_until<'a>(r: Reader<'a>, t: Test) -> Reader<'a>
    ensures { (result.file ≡ r.entry.file) × (result.at ≡ skip (fails t) r.entry.file.now r.entry.at) ×
        Ahead r.entry.file.now r.entry.at result.at }
{
    let at = scanner::eat_until(r.file, r.at, t);
    Reader { file: r.file, at }
}

// What stands at a place.
pub fn seen(file: &[u8], at: usize) -> Option<(u32, usize)>
    ensures { (result ≡ see file.now at) × Inside file.now at result }
{
    peek(new(file, at))
}

// The place after the character at a place.
pub fn after(file: &[u8], at: usize) -> usize
    ensures { (result ≡ next_of at (see file.now at)) × Ahead file.now at result }
{
    place(eat(new(file, at)))
}

// The first place from a place on whose character passes the test, or the end.
pub fn until(file: &[u8], at: usize, t: Test) -> usize
    ensures { (result ≡ skip (fails t) file.now at) × Ahead file.now at result }
{
    place(eat_until(new(file, at), t))
}
