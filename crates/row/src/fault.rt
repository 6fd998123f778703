// Why a call refuses, and where: one refusal for all calls [01:Numbers a caller can get].
ghost use Rattle.std.specs.Prelude.{◌≡◌};
ghost use Rattle.row.specs.Fault.{number_of, fault_at, nowhere};
ghost use Rattle.row.specs.declared.fault.Reason.TheVariants.{NotUtf8};

use text::utf8::IllFormed;

// Document 01's table, in its order.
#[derive(Clone, Copy)]
pub enum Reason {
    TooLong,
    NotUtf8,
    UnexpectedEof,
    ExpectedIdentifier,
    ExpectedOpeningBrace,
    ExpectedClosingBrace,
    ExpectedComma,
    ExpectedQuotationMark,
    ExpectedEquals,
    UnexpectedDecimalPoint,
    UnexpectedClosingBrace,
    UnknownAbbreviation,
    Cyclic,
    TooDeep,
    TooManyNames,
    NoRoom,
    BadRows,
}

// A refusal: its reason, and its place in the file. The place is 0..0 where 01 gives none.
#[derive(Clone, Copy)]
pub struct Fault {
    pub reason: Reason,
    pub start: usize,
    pub end: usize,
}

// A refusal at an empty place: a reader refuses where it stands.
pub fn fault_at(reason: Reason, at: usize) -> Fault
    ensures { result ≡ fault_at reason at }
{
    Fault {
        reason,
        start: at,
        end: at,
    }
}

// A refusal to which 01 gives no place.
pub fn nowhere(reason: Reason) -> Fault
    ensures { result ≡ nowhere reason }
{
    fault_at(reason, 0)
}

// [01:Numbers a caller can get] 2, at the first ill-formed sequence.
impl From<IllFormed> for Fault {
    ghost from_gives = { λ e f. f ≡ fault_at NotUtf8 e.at };

    fn from(e: IllFormed) -> Fault {
        fault_at(Reason::NotUtf8, e.at)
    }
}

// Document 01's number of a reason.
pub fn number(reason: Reason) -> u32
    ensures { result ≡ number_of reason }
{
    match reason {
        Reason::TooLong => 1,
        Reason::NotUtf8 => 2,
        Reason::UnexpectedEof => 3,
        Reason::ExpectedIdentifier => 4,
        Reason::ExpectedOpeningBrace => 5,
        Reason::ExpectedClosingBrace => 6,
        Reason::ExpectedComma => 7,
        Reason::ExpectedQuotationMark => 8,
        Reason::ExpectedEquals => 9,
        Reason::UnexpectedDecimalPoint => 10,
        Reason::UnexpectedClosingBrace => 11,
        Reason::UnknownAbbreviation => 12,
        Reason::Cyclic => 13,
        Reason::TooDeep => 14,
        Reason::TooManyNames => 15,
        Reason::NoRoom => 16,
        Reason::BadRows => 17,
    }
}
