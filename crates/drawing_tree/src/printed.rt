//! What is written in lists: each item's own text, and what stands between the items.

ghost use Rattle.std.specs.Prelude.{◌≡◌, ◌++◌, List, ℕ, OnOk};
ghost use Rattle.std.specs.List.{join_by, flat_map};
ghost use Rattle.drawing_tree.specs.Canonical.{bracketed, bracketed_if_some};

use scald_base::{Bytes, NoMemory};
use std::alloc::Global;

/// A part of a drawing that has a text.
pub trait Printed {
    ghost text: { Self → List ℕ };

    /// Puts its text at the end. If memory runs out a part of it may be there.
    fn add_to(&self, alloc: Global, out: &mut Bytes) -> Result<(), NoMemory>
        ensures { OnOk result (out.new ≡ out.old ++ text self.now) };
}

/// Puts items at the end, with bytes between each two.
pub fn add_joined<T: Printed>(
    alloc: Global,
    out: &mut Bytes,
    between: &[u8],
    items: &[T],
) -> Result<(), NoMemory>
    ensures { OnOk result (out.new ≡ out.old ++ join_by T.text between.now items.now) }
{
    let [first, more @ ..] = items else {
        return Ok(());
    };
    first.add_to(alloc, out)?;
    'more: for item in more {
        out.extend(between)?;
        item.add_to(alloc, out)?;
    }
    Ok(())
}

/// Puts items at the end, with a comma and a space between each two and brackets around them.
#[tactic(auto, unfolding(crate::specs::Canonical::bracketed))]
pub fn add_bracketed<T: Printed>(
    alloc: Global,
    out: &mut Bytes,
    before: &[u8],
    behind: &[u8],
    items: &[T],
) -> Result<(), NoMemory>
    ensures { OnOk result (out.new ≡ out.old ++ bracketed before.now behind.now T.text items.now) }
{
    out.extend(before)?;
    add_joined(alloc, out, b", ", items)?;
    out.extend(behind)
}

/// The same if there are some, else nothing.
#[tactic(auto, unfolding(crate::specs::Canonical::bracketed_if_some))]
pub fn add_bracketed_if_some<T: Printed>(
    alloc: Global,
    out: &mut Bytes,
    before: &[u8],
    behind: &[u8],
    items: &[T],
) -> Result<(), NoMemory>
    ensures { OnOk result (out.new
        ≡ out.old ++ bracketed_if_some before.now behind.now T.text items.now) }
{
    if items.is_empty() {
        return Ok(());
    }
    add_bracketed(alloc, out, before, behind, items)
}

/// Appends items, one after another.
pub fn add_each<T: Printed>(alloc: Global, out: &mut Bytes, items: &[T]) -> Result<(), NoMemory>
    ensures { OnOk result (out.new ≡ out.old ++ flat_map T.text items.now) }
{
    'items: for item in items {
        item.add_to(alloc, out)?;
    }
    Ok(())
}
