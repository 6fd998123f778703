// What is lent with a file: its rows, and month words with their texts. What resolving refuses with 17.
ghost use Rattle.std.specs.Prelude.{◌≡◌, drop};
ghost use Rattle.row.specs.Numbers.{rows_of};
ghost use Rattle.resolve.specs.Checks.{every_span, is_value, is_text, are_months, are_lent};

use crate::one_literal;
use row::check;
use row::form::VALUE;
use text::utf8;

// Whether every row's span lies in the file and cuts no character.
fn every_span(file: &[u8], rows: &[u32]) -> bool
    ensures { result ≡ every_span file.now (rows_of rows.now) }
{
    let (all, _) = rows.as_chunks::<4>();
    for &[_, _, start, end] in all {
        if !one_literal::is_span(file, start as usize, end as usize) {
            return false;
        }
    }
    true
}

// Whether a month word, or its text, lies in the lent bytes and is UTF-8.
fn is_text(words: &[u8], from: usize, to: usize) -> bool
    ensures { result ≡ is_text words.now from to }
{
    if (to < from) | (words.len() < to) {
        return false;
    }
    utf8::validate(&words[from..to]).is_ok()
}

// Whether there are four numbers for each month, and every word and every text is right.
fn are_months(months: &[u32], words: &[u8]) -> bool
    ensures { result ≡ are_months months.now words.now }
{
    if months.len() % 4 != 0 {
        return false;
    }
    let (all, _) = months.as_chunks::<4>();
    for &[from, to, start, end] in all {
        let word = is_text(words, from as usize, to as usize);
        let text = is_text(words, start as usize, end as usize);
        if !(word & text) {
            return false;
        }
    }
    true
}

// Whether rows and months are as resolving requires.
pub fn are_lent(file: &[u8], rows: &[u32], months: &[u32], words: &[u8]) -> bool
    ensures { result ≡ are_lent file.now rows.now months.now words.now }
{
    // Rows that the row check refuses are refused at once, whatever the spans and the months are, which can be long.
    if check::check(rows).is_err() {
        return false;
    }
    every_span(file, rows) & are_months(months, words)
}

// Whether a row is there and is a value.
pub fn is_value(rows: &[u32], which: usize) -> bool
    ensures { result ≡ is_value (drop which (rows_of rows.now)) }
{
    if rows.len() / 4 <= which {
        return false;
    }
    rows[which * 4] == VALUE
}
