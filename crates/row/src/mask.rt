// The row check by masks, for loops that judge many rows: the kinds that may come next are the bits of a number, and a row costs a shift
// where check.rt matches on a state. Both are proved against specs/Rules.antt, the one definition of a right sequence: the laws `masks-step`
// and `masks-whole` of proofs/rules/Masks.antt say that the masks lead where the rules lead.
ghost use Rattle.std.specs.Prelude.{◌≡◌, false};
ghost use Rattle.row.specs.Rules.{part};
ghost use Rattle.row.specs.Masks.{masks_of, taken_of, after_of, step_of, ends_of};

use crate::check;

// Two masks, in each of which bit k stands for kind k. The first has the kinds that may come next. The second has those that may come after
// the next literal or name: another of these, a new part of the sequence, and in an entry a field.
#[derive(Clone, Copy)]
pub struct Masks(pub u32, pub u32);

// The masks before the first row.
pub fn first() -> Masks
    ensures { result ≡ masks_of (part false) }
{
    Masks(0x303, 0x3c3)
}

// Whether a row of the kind with the detail may come. Only a cause, kind 10, has a detail, and where it may come nothing else may.
fn is_taken(may: u32, kind: u32, detail: u32) -> bool
    ensures { result ≡ taken_of may kind detail }
{
    if detail != 0 {
        return check::is_detail(kind, detail) & (may == 0x400);
    }
    if kind < 10 {
        return (may >> kind) % 2 == 1;
    }
    false
}

// The masks after a row of the kind, which may come.
fn after(more: u32, kind: u32) -> Masks
    ensures { result ≡ after_of more kind }
{
    match kind {
        1 => Masks(0x004, 0x3d3),
        2 => Masks(0x008, 0x3d3),
        3 => Masks(0x313, 0x3d3),
        4 => Masks(0x020, 0x3d3),
        5 => Masks(0x0c0, more),
        6 | 7 => Masks(more, more),
        8 => Masks(0x020, 0x3c3),
        9 => Masks(0x400, 0x3c3),
        _ => Masks(0x303, 0x3c3),
    }
}

// The masks after a row of the kind with the detail. Once a row breaks the rules, nothing may come.
pub fn step(masks: Masks, kind: u32, detail: u32) -> Masks
    ensures { result ≡ step_of masks kind detail }
{
    if is_taken(masks.0, kind, detail) {
        return after(masks.1, kind);
    }
    Masks(0, 0)
}

// Whether the sequence may end: where a preamble, kind 0, may come, a new part of it may begin.
pub fn is_whole(masks: Masks) -> bool
    ensures { result ≡ ends_of masks }
{
    masks.0 % 2 == 1
}
