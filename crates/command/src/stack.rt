// Text under construction, in lent bytes. Functions are given the place where the text ends so far, write behind it, and return the new end.
// An argument's text is made behind that of its parent. What lies past the end has no meaning, and `wipe` clears it before a call returns.
ghost use Rattle.std.specs.Prelude.{◌≡◌, true, [], ◌∷◌, ◌+◌, ◌≤◌, ◌<◌, length, replicate};
ghost use Rattle.text.specs.Scan.{part};
ghost use Rattle.text.specs.Utf8.{is_scalar, octets};
ghost use Rattle.command.specs.Stack.{Lays};

use text::{block, utf8};

// The bytes of s from one place to another.
pub fn copy(s: &[u8], from: usize, to: usize, out: &mut [u8], at: usize) -> usize
    requires { (from ≤ to) × (to ≤ length s.now) × (at + to ≤ length out.old + from) }
    ensures lays { Lays at (part s.now from to) out.old result out.new }
    ensures from_value { result + from ≡ at + to }
{
    let n = to - from;
    block::copy(s, from, n, out, at);
    at + n
}

// One byte.
pub fn push(out: &mut [u8], at: usize, b: u8) -> usize
    requires { at < length out.old }
    ensures lays { Lays at (b ∷ []) out.old result out.new }
    ensures value { result ≡ at + 1 }
{
    out[at] = b;
    at + 1
}

// One character. It asks for as many bytes as the character has and no more: at the end of an argument there may be no others.
pub fn put_code(out: &mut [u8], at: usize, c: u32) -> usize
    requires { (is_scalar c ≡ true) × (at + length (octets c) ≤ length out.old) }
    ensures { Lays at (octets c) out.old result out.new }
{
    match utf8::encode(c, &mut out[at..]) {
        Ok(n) => at + n,
        Err(_) => at,
    }
}

// Zeros over all the bytes.
pub fn wipe(out: &mut [u8])
    ensures { out.new ≡ replicate (length out.old) 0 }
{
    out.fill(0);
}
