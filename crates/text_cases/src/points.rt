// Every code point: through `encode`, `validate` and `decode`, and through the classes.
use std::io;
use text::utf8::{Decoded, EncodeError};
use text::{class, scanner, utf8};

// How many code points there are with each number of octets; `none` counts those that are no scalar values.
#[derive(Default, Drop)]
struct Tally {
    none: u32,
    one: u32,
    two: u32,
    three: u32,
    four: u32,
    wrong: u32,
}

impl Tally {
    fn count(&mut self, octets: usize) {
        let n = match octets {
            0 => &mut self.none,
            1 => &mut self.one,
            2 => &mut self.two,
            3 => &mut self.three,
            4 => &mut self.four,
            _ => &mut self.wrong,
        };
        *n = n.saturating_add(1);
    }
}

// Whether the first n bytes are UTF-8 and decode to c and nothing more.
fn is_back(bytes: &[u8], n: usize, c: u32) -> bool {
    let s = scanner::from(bytes, 0, n);
    if utf8::validate(s).is_err() {
        return false;
    }
    match utf8::decode(s, 0) {
        Decoded::Char { code, next } => (code == c) & (next == n),
        Decoded::End => false,
        Decoded::IllFormed => false,
    }
}

// The number of octets of c, 0 where it is no scalar value, and 9 where it does not come back.
fn round(c: u32) -> usize {
    let mut out = [0u8; 4];
    match utf8::encode(c, &mut out) {
        Err(EncodeError::NotScalar) => 0,
        Err(EncodeError::NoRoom) => 9,
        Ok(n) => {
            if is_back(&out, n, c) {
                return n;
            }
            9
        }
    }
}

pub fn all(rt: &impl Print) -> io::Result<()> {
    let mut t = Tally::default();
    for c in 0..0x110000 {
        t.count(round(c));
    }
    println!(rt; "one octet {}", t.one)?;
    println!(rt; "two octets {}", t.two)?;
    println!(rt; "three octets {}", t.three)?;
    println!(rt; "four octets {}", t.four)?;
    println!(rt; "no scalar value {}", t.none)?;
    println!(rt; "wrong {}", t.wrong)?;
    println!(rt; "octets of 110000: {}", round(0x110000))?;
    println!(rt; "octets of ffffffff: {}", round(0xffff_ffff))
}

// Prints the code points that are in a class, and how many there are.
fn list<F: Fn(u32) -> bool>(rt: &impl Print, name: &str, is_in: F) -> io::Result<()>
    requires { F.IsAlwaysCallable is_in }
{
    print!(rt; "{name}:")?;
    let mut n = 0u32;
    for c in 0..0x110000 {
        if is_in(c) {
            print!(rt; " {c:04x}")?;
            n = n.saturating_add(1);
        }
    }
    println!(rt; "\nin all {n}")
}

pub fn classes(rt: &impl Print) -> io::Result<()> {
    list(rt, "white space", class::is_whitespace)?;
    list(rt, "control", class::is_control)
}
