//! The table of readers.

ghost use Rattle.std.specs.Prelude.{◌≡◌, ◌<◌, ◌^◌, ◌&&◌, ◌==◌, ℕ, [], length, map, if◌then◌else◌, IfOk, OnOk};
ghost use Rattle.std.specs.List.{All, range_with_len};
ghost use Rattle.element_kinds.specs.Kinds.{listens};
ghost use Rattle.flat_circuit.specs.Instances.{InstanceExists, PinExists, TargetExists, is_on, readers_of};
ghost use Rattle.flat_circuit.specs.Steps.{row_at, row_noted, pins_noted, noted_by, last_is};

use crate::instance::{Instance, Pin};
use crate::short_list::ShortList;
use element_kinds::Kind;
use scald_base::NoMemory;
use std::alloc::Global;
use vector_names::Target;

/// The readers of a net, of which most have one or two.
pub type Readers = ShortList<u32>;

/// For each of so many nets, the instances with an output that listen to it, each once, ascending.
pub(crate) fn readers(
    alloc: Global,
    instances: &[Instance],
    nets: usize,
) -> Result<Vec<Readers>, NoMemory>
    requires within { All (InstanceExists nets) instances.now }
    requires few { length instances.now < 2 ^ 32 }
    ensures { IfOk result (λ rows.
        rows.items ≡ map (readers_of instances.now) (range_with_len 0 nets)) }
{
    let mut rows = empty_rows(alloc, nets)?;
    for k in 0..instances.len() {
        note_instance(&mut rows, &instances[k], k as u32)?;
    }
    Ok(rows)
}

fn empty_rows(alloc: Global, count: usize) -> Result<Vec<Readers>, NoMemory>
    ensures { IfOk result (λ rows. rows.items ≡ map (λ _. []) (range_with_len 0 count)) }
{
    let mut rows = Vec::with_capacity(alloc, count)?;
    for _k in 0..count {
        rows.push(Readers::new(alloc))?;
    }
    Ok(rows)
}

// Notes instance k at the nets of its listening pins, if it has an output.
fn note_instance(rows: &mut Vec<Readers>, instance: &Instance, k: u32) -> Result<(), NoMemory>
    requires { InstanceExists (length rows.old.items) instance.now }
    ensures long { OnOk result (length rows.new.items ≡ length rows.old.items) }
    ensures noted { OnOk result
        ((i : ℕ) → row_at rows.new.items i
        ≡ noted_by instance.now i k (row_at rows.old.items i)) }
{
    if instance.out.is_some() {
        note_pins(rows, instance.kind, instance.pins.as_slice(), k)
    } else {
        Ok(())
    }
}

fn note_pins(rows: &mut Vec<Readers>, kind: Kind, pins: &[Pin], k: u32) -> Result<(), NoMemory>
    requires { All (PinExists (length rows.old.items)) pins.now }
    ensures long { OnOk result (length rows.new.items ≡ length rows.old.items) }
    ensures noted { OnOk result ((i : ℕ) →
        row_at rows.new.items i ≡ pins_noted kind i k 0 pins.now (row_at rows.old.items i)) }
{
    for t in 0..pins.len() {
        note_pin(rows, kind, t, pins[t].target, k)?;
    }
    Ok(())
}

// Notes instance k at the net of its pin at a place, if that pin listens.
fn note_pin(
    rows: &mut Vec<Readers>,
    kind: Kind,
    place: usize,
    target: Target,
    k: u32,
) -> Result<(), NoMemory>
    requires { TargetExists (length rows.old.items) target }
    ensures long { OnOk result (length rows.new.items ≡ length rows.old.items) }
    ensures noted { OnOk result
        ((i : ℕ) → row_at rows.new.items i ≡ (if listens kind place && is_on i
        target then row_noted (row_at rows.old.items i) k else row_at rows.old.items i)) }
{
    if !kind.listens(place) {
        return Ok(());
    }
    match target {
        Target::Constant(_) => Ok(()),
        Target::Net(i) => {
            note_at(rows, i, k)?;
            Ok(())
        }
    }
}

fn note_at(rows: &mut Vec<Readers>, i: u32, k: u32) -> Result<(), NoMemory>
    requires { i < length rows.old.items }
    ensures long { OnOk result (length rows.new.items ≡ length rows.old.items) }
    ensures noted { OnOk result ((x : ℕ) → row_at rows.new.items
        x ≡ (if i == x then row_noted (row_at rows.old.items x) k else row_at rows.old.items x)) }
{
    note_row(&mut rows[i as usize], k)?;
    Ok(())
}

fn note_row(row: &mut Readers, k: u32) -> Result<(), NoMemory>
    ensures { OnOk result (row.new ≡ row_noted row.old k) }
{
    if !last_is_it(row.as_slice(), k) {
        row.push(k)?;
    }
    Ok(())
}

fn last_is_it(row: &[u32], k: u32) -> bool
    ensures { result ≡ last_is row.now k }
{
    match row.last() {
        None => false,
        Some(last) => *last == k,
    }
}
