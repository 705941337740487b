//! What follows from a literal that became false.

use crate::store::Store;
use crate::trail::Trail;
use clause_check::Literal;
use scald_base::NoMemory;

/// Visits the clauses that watch a literal which became false. A clause with one literal left makes
/// it hold. The answer is the place of a clause that has none left.
pub(crate) fn visit(
    store: &mut Store,
    trail: &mut Trail,
    falsified: Literal,
) -> Result<Option<usize>, NoMemory> {
    let mut conflict = None;
    let mut next = store.take_list(falsified);
    // A clause stands once in a list, so the list ends within so many.
    for _ in 0..store.clauses.len() {
        let Some(place) = next else {
            break;
        };
        let Some((first, after)) = store.put_second(place, falsified) else {
            break;
        };
        next = after;
        let watched = if conflict.is_none() {
            visit_clause(store, trail, place, first, &mut conflict)?
        } else {
            None
        };
        store.watch_second(place, watched.unwrap_or(falsified));
    }
    Ok(conflict)
}

/// Visits a clause whose second literal is false, and gives another that it is to watch in its
/// place.
fn visit_clause(
    store: &mut Store,
    trail: &mut Trail,
    place: usize,
    first: Literal,
    conflict: &mut Option<usize>,
) -> Result<Option<Literal>, NoMemory> {
    let value = trail.value(first);
    if value == Some(true) {
        return Ok(None);
    }
    let other = store.replace_second(place, trail);
    if other.is_none() {
        if value == Some(false) {
            *conflict = Some(place);
        } else {
            trail.assign(first, Some(place))?;
        }
    }
    Ok(other)
}
