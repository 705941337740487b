//! Why a text is refused, and where.

ghost use Rattle.std.specs.Prelude.{◌≡◌};
ghost use Rattle.scald_base.specs.Refusal.{number_of, name_of};

use crate::list::NoMemory;

/// A place in the text. Lines and columns count from 1, and a column is a byte.
#[derive(Clone, Copy, PartialEq, Eq, Debug)]
pub struct Place {
    pub line: u32,
    pub col: u32,
}

/// Why a text is refused. Each kind has its number, which the report prints.
#[derive(Clone, Copy, PartialEq, Eq, Debug)]
pub enum RefusalKind {
    /// A byte that no text may hold.
    BadByte,
    /// No token begins here.
    BadToken,
    /// No text goes on with this token.
    Syntax,
    /// A number of the header is out of its bounds.
    BadHeader,
    /// A name stands twice where it must stand once.
    DoubleName,
    /// A use names no primitive and no macro.
    UnknownKind,
    /// A signal's name has not the form of one.
    BadName,
    /// One name has two different assertions.
    AssertionClash,
    /// A parameter that the kind lacks, or that is given twice.
    BadParameter,
    /// A value leaves 64 signed bits.
    Overflow,
    /// A bit number is out of range, or too many come.
    BadRange,
    /// A connection has the wrong width.
    Width,
    /// The number of connections is wrong, or a hazard mark stands where none may.
    PinCount,
    /// A delay, a wire's bounds or a checker's limit is out of its bounds.
    Bounds,
    /// Too deeply nested.
    TooDeep,
    /// More nets, instances, pins, statements or cases than are allowed.
    TooMany,
    /// An output is a constant or already driven.
    TwoDrivers,
    /// A loop without delay.
    ZeroLoop,
    /// A case names a net that it may not set.
    CaseNet,
    /// The regions of two edges of a clock overlap.
    EdgesOverlap,
    /// A division by zero.
    ZeroDivisor,
    /// An expression names no parameter, constant or variable of a FOR.
    UnknownName,
}

impl RefusalKind {
    /// The number that the report prints, 1 to 22.
    pub fn number(self) -> u8
        ensures { result ≡ number_of self }
    {
        match self {
            RefusalKind::BadByte => 1,
            RefusalKind::BadToken => 2,
            RefusalKind::Syntax => 3,
            RefusalKind::BadHeader => 4,
            RefusalKind::DoubleName => 5,
            RefusalKind::UnknownKind => 6,
            RefusalKind::BadName => 7,
            RefusalKind::AssertionClash => 8,
            RefusalKind::BadParameter => 9,
            RefusalKind::Overflow => 10,
            RefusalKind::BadRange => 11,
            RefusalKind::Width => 12,
            RefusalKind::PinCount => 13,
            RefusalKind::Bounds => 14,
            RefusalKind::TooDeep => 15,
            RefusalKind::TooMany => 16,
            RefusalKind::TwoDrivers => 17,
            RefusalKind::ZeroLoop => 18,
            RefusalKind::CaseNet => 19,
            RefusalKind::EdgesOverlap => 20,
            RefusalKind::ZeroDivisor => 21,
            RefusalKind::UnknownName => 22,
        }
    }

    /// The name that the report prints after the number, in ASCII.
    pub fn name(self) -> &'static str
        ensures { result.now ≡ name_of self }
    {
        match self {
            RefusalKind::BadByte => "BadByte",
            RefusalKind::BadToken => "BadToken",
            RefusalKind::Syntax => "Syntax",
            RefusalKind::BadHeader => "BadHeader",
            RefusalKind::DoubleName => "DoubleName",
            RefusalKind::UnknownKind => "UnknownKind",
            RefusalKind::BadName => "BadName",
            RefusalKind::AssertionClash => "AssertionClash",
            RefusalKind::BadParameter => "BadParameter",
            RefusalKind::Overflow => "Overflow",
            RefusalKind::BadRange => "BadRange",
            RefusalKind::Width => "Width",
            RefusalKind::PinCount => "PinCount",
            RefusalKind::Bounds => "Bounds",
            RefusalKind::TooDeep => "TooDeep",
            RefusalKind::TooMany => "TooMany",
            RefusalKind::TwoDrivers => "TwoDrivers",
            RefusalKind::ZeroLoop => "ZeroLoop",
            RefusalKind::CaseNet => "CaseNet",
            RefusalKind::EdgesOverlap => "EdgesOverlap",
            RefusalKind::ZeroDivisor => "ZeroDivisor",
            RefusalKind::UnknownName => "UnknownName",
        }
    }
}

/// A refusal: why, and at which place of the text or of its end.
#[derive(Clone, Copy, PartialEq, Eq, Debug)]
pub struct Refusal {
    pub kind: RefusalKind,
    pub place: Place,
}

/// Why a stage of reading gives nothing.
#[derive(Clone, Copy, PartialEq, Eq, Debug)]
pub enum Stop {
    /// The text is refused.
    Refused(Refusal),
    /// Memory ran out.
    NoMemory,
}

impl Stop {
    /// The refusal for this reason, at this place.
    pub fn refused(kind: RefusalKind, place: Place) -> Stop
        ensures { result ≡ Stop.Refused (record { kind = kind; place = place }) }
    {
        Stop::Refused(Refusal { kind, place })
    }
}

impl From<NoMemory> for Stop {
    ghost use Rattle.scald_base.specs.declared.refusal.Stop.TheVariants.{NoMemory as OutOfMemory};

    ghost from_gives = { λ _ e. e ≡ OutOfMemory };

    fn from(_e: NoMemory) -> Stop {
        Stop::NoMemory
    }
}
