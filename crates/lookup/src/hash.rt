// FNV-1a with 32 bits: basis 2166136261, multiplier 16777619, every product modulo 4,294,967,296 [02:7].
ghost use Rattle.std.specs.Prelude.{◌≡◌};
ghost use Rattle.lookup.specs.Fnv.{times, hash_of};

// The low 32 bits of the product. Not the library's `wrapping_mul`, because a rule of the project asks for a helper of the program's own.
fn wrapping_mul(a: u32, b: u32) -> u32
    ensures { result ≡ times a b }
{
    let product = a as u64 * b as u64;
    (product % 4294967296) as u32
}

pub fn fnv1a(bytes: &[u8]) -> u32
    ensures { result ≡ hash_of bytes.now }
{
    let mut hash = 2166136261;
    for b in bytes {
        hash = wrapping_mul(u32::from(*b) ^ hash, 16777619);
    }
    hash
}
