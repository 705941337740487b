//! Kinds by their names.

ghost use Rattle.std.specs.Prelude.{◌≡◌};
ghost use Rattle.std.specs.List.{find, list_any};
ghost use Rattle.std.specs.Str.{bytes_eq};
ghost use Rattle.element_kinds.specs.Kinds.{is_named, kind_names, kind_of};

use crate::kind::{KINDS, Kind};
use scald_base::same_bytes;

/// The first of these kinds that has this name.
fn named_among(kinds: &[Kind], name: &[u8]) -> Option<Kind>
    ensures { result ≡ find (is_named name.now) kinds.now }
{
    for kind in kinds {
        if same_bytes(name, kind.name()) {
            return Some(*kind);
        }
    }
    None
}

/// The kind that has this name.
pub fn kind_named(name: &[u8]) -> Option<Kind>
    ensures { result ≡ kind_of name.now }
{
    named_among(&KINDS, name)
}

/// Whether a kind has this name.
pub fn is_kind_name(name: &[u8]) -> bool
    ensures { result ≡ list_any (bytes_eq name.now) kind_names }
{
    kind_named(name).is_some()
}
