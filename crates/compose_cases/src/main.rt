// Asks what every scalar value composes to with each of the sixteen marks of `execute_command`, and prints what composes: letter, mark, composed
// character. `stdout` says what must come out; host/compose/cases made it from ICU, without our table.
//
// `find` is asked for every pair, over a table that is made once, and `compose` again for each pair that composes.
#![tactic(auto)]

use std::io;

const MARKS: [u32; 16] = [
    0x0300, 0x0301, 0x0302, 0x0303, 0x0304, 0x0306, 0x0307, 0x0308, 0x030a, 0x030b, 0x030c, 0x0323,
    0x0327, 0x0328, 0x0332, 0x0338,
];

// How many pairs were asked for, and how many of them compose.
#[derive(Clone, Copy, Default)]
struct Tally {
    asked: u64,
    composed: u64,
}

// Whether `compose` answers c too.
fn is_composed(letter: u32, mark: u32, c: u32) -> bool {
    match compose::compose(letter, mark) {
        Some(d) => c == d,
        None => false,
    }
}

fn show(rt: &impl Print, letter: u32, mark: u32, c: u32) -> io::Result<()> {
    print!(rt; "{letter:04x} {mark:04x} {c:04x}")?;
    if !is_composed(letter, mark, c) {
        print!(rt; " but not by compose")?;
    }
    println!(rt)
}

// One letter with one mark.
fn pair(rt: &impl Print, table: &[u32], letter: u32, mark: u32, t: Tally) -> io::Result<Tally> {
    let asked = t.asked.saturating_add(1);
    let composed = t.composed;
    match compose::find(table, letter, mark) {
        Some(c) => {
            show(rt, letter, mark, c)?;
            Ok(Tally {
                asked,
                composed: composed.saturating_add(1),
            })
        }
        None => Ok(Tally { asked, composed }),
    }
}

// One letter with every mark.
fn with_marks(rt: &impl Print, table: &[u32], letter: u32, tally: Tally) -> io::Result<Tally> {
    let mut t = tally;
    for mark in MARKS {
        t = pair(rt, table, letter, mark, t)?;
    }
    Ok(t)
}

// The letters from first on, up to but not including end.
fn letters(
    rt: &impl Print,
    table: &[u32],
    first: u32,
    end: u32,
    tally: Tally,
) -> io::Result<Tally> {
    let mut t = tally;
    for c in first..end {
        t = with_marks(rt, table, c, t)?;
    }
    Ok(t)
}

fn main(rt: HostRuntime) -> io::Result<()> {
    let table = compose::table();
    let low = letters(&rt, &table, 0, 0xd800, Tally::default())?;
    let all = letters(&rt, &table, 0xe000, 0x110000, low)?;
    println!(rt; "{} of {} pairs compose", all.composed, all.asked)
}
