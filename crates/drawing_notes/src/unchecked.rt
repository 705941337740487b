//! Inputs of registers and latches that no checker sees.

ghost use Rattle.std.specs.Prelude.{◌≡◌, false, slice_get, true, IfOk, OnOk};
ghost use Rattle.std.specs.List.{list_any};
ghost use Rattle.element_kinds.specs.Kinds.{check_of};
ghost use Rattle.drawing_omissions.specs.Lines.{Adds};
ghost use Rattle.drawing_notes.specs.Unchecked.{AreSeen, across, is_across as spec_is_across, is_among, is_same, is_watched, sampling_of, seen_by, turned, unchecked, unchecked_at};

use crate::pins::{CLOCK, INPUT, is_inverted, is_latch, is_storage, pin_net};
use drawing_omissions::Notes;
use element_kinds::Check;
use flat_circuit::{Circuit, Instance, Kind};
use indexmap::IndexSet;
use listing::{Piece, instance_piece, net_piece};
use scald_base::NoMemory;
use std::alloc::Global;

/// A clock, complemented or not, and an input, each by its net.
#[derive(Clone, Copy, PartialEq, Eq, Hash, Debug)]
pub struct Sampling {
    pub clock: u32,
    pub inverted: bool,
    pub input: u32,
    /// From the rise of the clock to its fall.
    pub across: bool,
}

/// Whether a kind checks from the rise of its clock to the fall.
fn is_across(kind: Kind) -> bool
    ensures { result ≡ spec_is_across (check_of kind) }
{
    matches!(kind.check(), Some(Check::RiseFall))
}

/// The clock and the input of an instance, if both are on nets.
fn sampling_of(instance: &Instance) -> Option<Sampling>
    ensures { result ≡ sampling_of instance.now }
{
    match pin_net(instance, CLOCK) {
        None => None,
        Some(clock) => match pin_net(instance, INPUT) {
            None => None,
            Some(input) => Some(Sampling {
                clock,
                inverted: is_inverted(instance, CLOCK),
                input,
                across: is_across(instance.kind),
            }),
        },
    }
}

/// What the checkers of setup and hold see.
fn seen(alloc: Global, c: &Circuit) -> Result<IndexSet<Sampling>, NoMemory>
    ensures { IfOk result (λ seen. AreSeen c.now.instances seen.keys) }
{
    let mut seen = IndexSet::new(alloc);
    for number in 0..c.instance_count() {
        if let Some(sampling) = seen_by(c, number) {
            seen.insert(sampling)?;
        }
    }
    Ok(seen)
}

/// What an instance sees, if it is a checker of setup and hold.
fn seen_by(c: &Circuit, number: u32) -> Option<Sampling>
    ensures { result ≡ seen_by (slice_get c.now.instances number) }
{
    match c.instance(number) {
        Some(instance) if instance.kind.checks_points() => sampling_of(instance),
        _ => None,
    }
}

/// The same input at the other edge of the clock.
fn turned(sampling: Sampling) -> Sampling
    ensures { result ≡ turned sampling }
{
    Sampling {
        inverted: !sampling.inverted,
        ..sampling
    }
}

/// The same input from the rise of the clock to its fall.
fn across(sampling: Sampling) -> Sampling
    ensures { result ≡ across sampling }
{
    Sampling {
        across: true,
        ..sampling
    }
}

/// Whether a latch has its input among what is seen: at the edge that closes it, or from edge to
/// edge.
fn is_closed(seen: &IndexSet<Sampling>, sampling: Sampling) -> bool
    ensures { result ≡ is_watched (λ t. list_any (is_same t) seen.now.keys) true sampling }
{
    let closing = turned(sampling);
    if seen.contains(&closing) {
        return true;
    }
    if seen.contains(&across(sampling)) {
        return true;
    }
    seen.contains(&across(closing))
}

/// Whether a register has its input among what is seen, at the edge that clocks it.
fn is_clocked(seen: &IndexSet<Sampling>, sampling: Sampling) -> bool
    ensures { result ≡ is_watched (λ t. list_any (is_same t) seen.now.keys) false sampling }
{
    if seen.contains(&sampling) {
        return true;
    }
    seen.contains(&across(sampling))
}

/// Whether storage of a kind has its input among what is seen.
fn is_among(seen: &IndexSet<Sampling>, kind: Kind, sampling: Option<Sampling>) -> bool
    ensures { result ≡ is_among seen.now.keys kind sampling }
{
    let Some(sampling) = sampling else {
        return false;
    };
    if is_latch(kind) {
        return is_closed(seen, sampling);
    }
    is_clocked(seen, sampling)
}

/// The note on an instance, if it is storage whose input is not seen.
#[tactic(auto, unfolding(crate::specs::Unchecked::unchecked_line))]
fn add_unchecked_at(
    notes: &mut Notes,
    c: &Circuit,
    seen: &IndexSet<Sampling>,
    number: u32,
) -> Result<(), NoMemory>
    requires { AreSeen c.now.instances seen.now.keys }
    ensures { OnOk result (Adds notes.old notes.new (unchecked_at c.now number)) }
{
    let Some(instance) = c.instance(number) else {
        return Ok(());
    };
    if !is_storage(instance.kind) {
        return Ok(());
    }
    let Some(input) = pin_net(instance, INPUT) else {
        return Ok(());
    };
    if !is_among(seen, instance.kind, sampling_of(instance)) {
        notes.add(&[
            Piece::Text(b"NOTE UNCHECKED "),
            instance_piece(c, number),
            Piece::Text(b" "),
            net_piece(c, input),
        ])?;
    }
    Ok(())
}

/// The notes on the inputs of registers and latches that no checker of setup and hold sees with
/// their own clock, in the order of expansion.
pub fn add_unchecked(notes: &mut Notes, alloc: Global, c: &Circuit) -> Result<(), NoMemory>
    ensures { OnOk result (Adds notes.old notes.new (unchecked c.now)) }
{
    let seen = seen(alloc, c)?;
    for number in 0..c.instance_count() {
        add_unchecked_at(notes, c, &seen, number)?;
    }
    Ok(())
}
