// Asks what every scalar value is raised to and lowered to, and prints what changes: the character and its image. `stdout` says what must come
// out; host/casing/cases made it from ICU, without our tables.
//
// `lowered` is asked for every character, over a table that is made once, and `to_lowercase` again for each that changes.
#![tactic(auto)]

ghost use Rattle.std.specs.Prelude.{◌≡◌};
ghost use Rattle.casing.specs.Mapping.{numbers};
ghost use Rattle.casing.specs.Lowers.{lowers};

use casing::Image;
use std::io;

// How many characters were asked for, and how many of them change.
#[derive(Clone, Copy, Default)]
struct Tally {
    asked: u64,
    raised: u64,
    lowered: u64,
}

// A character behind a blank; nothing for 0, where an image has none.
fn hex(rt: &impl Print, c: u32) -> io::Result<()> {
    if c != 0 {
        print!(rt; " {c:04x}")?;
    }
    Ok(())
}

fn show(rt: &impl Print, what: &str, c: u32, i: Image) -> io::Result<()> {
    print!(rt; "{what}")?;
    hex(rt, c)?;
    hex(rt, i.one)?;
    hex(rt, i.two)?;
    hex(rt, i.three)?;
    println!(rt)
}

fn is_itself(c: u32, i: Image) -> bool {
    i == Image {
        one: c,
        two: 0,
        three: 0,
    }
}

// One more, if the character changes.
fn raise(rt: &impl Print, c: u32, n: u64) -> io::Result<u64> {
    let i = casing::to_uppercase(c);
    if is_itself(c, i) {
        return Ok(n);
    }
    show(rt, "upper", c, i)?;
    Ok(n.saturating_add(1))
}

fn lower(rt: &impl Print, table: &[u32], c: u32, n: u64) -> io::Result<u64>
    requires { table.now ≡ numbers lowers }
{
    let i = casing::lowered(table, c);
    if is_itself(c, i) {
        return Ok(n);
    }
    show(rt, "lower", c, i)?;
    if i != casing::to_lowercase(c) {
        println!(rt; "but not by to_lowercase")?;
    }
    Ok(n.saturating_add(1))
}

// The characters from first on, up to but not including end.
fn characters(
    rt: &impl Print,
    table: &[u32],
    first: u32,
    end: u32,
    tally: Tally,
) -> io::Result<Tally>
    requires { table.now ≡ numbers lowers }
{
    let mut t = tally;
    for c in first..end {
        t = Tally {
            asked: t.asked.saturating_add(1),
            raised: raise(rt, c, t.raised)?,
            lowered: lower(rt, table, c, t.lowered)?,
        };
    }
    Ok(t)
}

fn main(rt: HostRuntime) -> io::Result<()> {
    let table = casing::lower_table();
    let low = characters(&rt, &table, 0, 0xd800, Tally::default())?;
    let all = characters(&rt, &table, 0xe000, 0x110000, low)?;
    println!(rt;
        "{} of {} characters change when raised, {} when lowered",
        all.raised, all.asked, all.lowered
    )
}
