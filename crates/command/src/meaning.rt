// What the name of a command means, after the list of `execute_command`.
ghost use Rattle.std.specs.Prelude.{◌≡◌, [], ◌∷◌, ◌+◌, ◌≤◌, length};
ghost use Rattle.text.specs.Scan.{part};
ghost use Rattle.command.specs.Commands.{meaning_of};
ghost use Rattle.command.specs.Names.{code_of, decoded, names as all_names, SpanOf};

#[derive(Clone, Copy)]
pub enum Meaning {
    // The name itself is written.
    Itself,
    // A character is written.
    Letter(u32),
    // A mark is put onto the argument.
    Accent(u32),
    // U+00F8, or the mark U+0338 onto the argument.
    Slash,
    // U+00A9 and the argument.
    Copyright,
    // Nothing is written.
    Hyphenation,
    // The command is written as it was read: a meaning like the others, which `executed` says the text of, so this is no `Option`.
    Unknown,
}

// A name of one byte.
fn meaning_one(b: u8) -> Meaning
    ensures { result ≡ meaning_of (b ∷ []) }
{
    match b {
        0x60 => Meaning::Accent(0x300),
        0x27 => Meaning::Accent(0x301),
        0x5e => Meaning::Accent(0x302),
        0x7e => Meaning::Accent(0x303),
        0x3d => Meaning::Accent(0x304),
        0x75 => Meaning::Accent(0x306),
        0x2e => Meaning::Accent(0x307),
        0x22 => Meaning::Accent(0x308),
        0x72 => Meaning::Accent(0x30a),
        0x48 => Meaning::Accent(0x30b),
        0x76 => Meaning::Accent(0x30c),
        0x64 => Meaning::Accent(0x323),
        0x63 => Meaning::Accent(0x327),
        0x6b => Meaning::Accent(0x328),
        0x62 => Meaning::Accent(0x332),
        0x2d => Meaning::Hyphenation,
        0x6f => Meaning::Slash,
        0x4f => Meaning::Letter(0xd8),
        0x6c => Meaning::Letter(0x142),
        0x4c => Meaning::Letter(0x141),
        0x69 => Meaning::Letter(0x131),
        0x50 => Meaning::Letter(0xb6),
        0x53 => Meaning::Letter(0xa7),
        _ => Meaning::Unknown,
    }
}

// The meaning that the three bytes of a row stand for.
fn meaning_at(x: u8, y: u8, z: u8) -> Meaning
    ensures { result ≡ decoded (code_of x y z) }
{
    let c = (u32::from(x) * 256 + u32::from(y)) * 256 + u32::from(z);
    match c / 0x100000 {
        0 => Meaning::Letter(c),
        2 => Meaning::Itself,
        3 => Meaning::Copyright,
        5 => Meaning::Accent(c % 0x100000),
        _ => Meaning::Unknown,
    }
}

// Two places among the names, at which rows begin.
#[derive(Clone, Copy)]
struct Span(usize, usize);

// Between which two places a name of n bytes is to be looked for: outside of them no name has n bytes. None has more than 24, and those of more
// than eleven bytes share a span.
fn span_of(n: usize) -> Span
    ensures { SpanOf n result.0 result.1 }
{
    if 24 < n {
        return Span(0, 0);
    }
    match n {
        2 => Span(727, 901),
        3 => Span(9, 16),
        4 => Span(853, 869),
        5 => Span(0, 9),
        6 => Span(885, 895),
        7 => Span(338, 349),
        8 => Span(443, 455),
        9 => Span(840, 853),
        10 => Span(16, 443),
        11 => Span(455, 619),
        _ => Span(44, 885),
    }
}

// What the name from one place to another means.
pub fn meaning_of(names: &[u8], s: &[u8], a: usize, e: usize) -> Meaning
    requires { (names.now ≡ all_names) × (a ≤ e) × (e ≤ length s.now) }
    ensures { result ≡ meaning_of (part s.now a e) }
{
    let n = e - a;
    if n == 1 {
        return meaning_one(s[a]);
    }
    let span = span_of(n);
    let mut i = span.0;
    let to = span.1;
    // No `for`: the rows are of different lengths.
    while i < to {
        let m = usize::from(names[i]);
        if names[i + 4..i + 4 + m] == s[a..e] {
            return meaning_at(names[i + 1], names[i + 2], names[i + 3]);
        }
        i += 4 + m;
    }
    Meaning::Unknown
}
