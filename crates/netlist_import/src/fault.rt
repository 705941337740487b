//! What is wrong in a netlist.

ghost use Rattle.std.specs.Prelude.{◌≡◌};
ghost use Rattle.netlist_import.specs.Fault.{comes_first, earlier, fault_at, name_of_kind, number_of_kind};
ghost use Rattle.netlist_import.specs.Placed.{placed_of};

use crate::value::Json;

/// Why a netlist is refused.
#[derive(Clone, Copy)]
pub enum FaultKind {
    /// The text is no JSON, nests more than 64 deep, or has a name twice in one object.
    Json,
    /// A member that is needed is missing or of another type, a bit is none, or an index is too
    /// great.
    NoNetlist,
    /// A port leads both ways, or in no direction.
    BadDirection,
    /// A port or a connection has more than 256 bits.
    TooWide,
    /// A cell has a connection that is no port of its module, or is of another width.
    UnlikeCells,
}

impl FaultKind {
    /// The number that the refusal prints, 30 to 34.
    pub fn number(self) -> u8
        ensures { result ≡ number_of_kind self }
    {
        match self {
            FaultKind::Json => 30,
            FaultKind::NoNetlist => 31,
            FaultKind::BadDirection => 32,
            FaultKind::TooWide => 33,
            FaultKind::UnlikeCells => 34,
        }
    }

    /// The name that the refusal prints after the number.
    pub fn name(self) -> &'static str
        ensures { result.now ≡ name_of_kind self }
    {
        match self {
            FaultKind::Json => "Json",
            FaultKind::NoNetlist => "NoNetlist",
            FaultKind::BadDirection => "BadDirection",
            FaultKind::TooWide => "TooWide",
            FaultKind::UnlikeCells => "UnlikeCells",
        }
    }
}

/// A fault, at the token of this number, from 0.
#[derive(Clone, Copy)]
pub(crate) struct Fault {
    pub(crate) kind: FaultKind,
    pub(crate) token: u32,
}

/// A fault, if there is one.
pub(crate) type Found = Option<Fault>;

pub(crate) fn fault_at(kind: FaultKind, value: &Json) -> Found
    ensures { result ≡ fault_at kind (placed_of value.now) }
{
    Some(Fault {
        kind,
        token: value.token(),
    })
}

fn comes_first(fault: Fault, other: Fault) -> bool
    ensures { result ≡ comes_first fault other }
{
    fault.token < other.token
        || (fault.token == other.token && fault.kind.number() <= other.kind.number())
}

/// The first of two in the text.
pub(crate) fn earlier(found: Found, other: Found) -> Found
    ensures { result ≡ earlier found other }
{
    match (found, other) {
        (None, _) => other,
        (Some(_), None) => found,
        (Some(fault), Some(second)) => {
            if comes_first(fault, second) {
                found
            } else {
                other
            }
        }
    }
}
