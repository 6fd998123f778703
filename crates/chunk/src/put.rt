// Octets into lent bytes, each only where it fits. Over no bytes the same code counts: a writer that has to judge before it writes does so over none.
ghost use Rattle.std.specs.Prelude.{◌≡◌, [], ◌∷◌, ◌+◌, ◌≤◌, ◌<◌, length};
ghost use Rattle.text.specs.Scan.{part};
ghost use Rattle.chunk.specs.Put.{last_place, Puts};

use text::block;

// One byte; the place after it.
pub fn put(out: &mut [u8], at: usize, b: u8) -> usize
    requires { at < last_place }
    ensures puts { Puts out.old at (b ∷ []) result out.new }
    ensures value { result ≡ at + 1 }
{
    if at < out.len() {
        out[at] = b;
    }
    at + 1
}

// The bytes of s from one place to another; the place after them.
pub fn copy(s: &[u8], from: usize, to: usize, out: &mut [u8], at: usize) -> usize
    requires { (from ≤ to) × (to ≤ length s.now) × (at + to ≤ last_place + from) }
    ensures puts { Puts out.old at (part s.now from to) result out.new }
    ensures from_value { result + from ≡ at + to }
{
    let n = to - from;
    if out.len() <= at {
        return at + n;
    }
    block::copy(s, from, n.min(out.len() - at), out, at);
    at + n
}
