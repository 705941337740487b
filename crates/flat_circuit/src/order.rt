//! The order of the nets' names.

ghost use Rattle.std.specs.Prelude.{◌≡◌, ◌<◌, ◌≤◌, ◌^◌, ◌++◌, length, map, IfOk, OnOk};
ghost use Rattle.std.specs.List.{flat_map, range_with_len};
ghost use Rattle.std.specs.List.Sorted.{IsPermutation};
ghost use Rattle.flat_circuit.specs.Name.{name_at, name_cmp, IsNameOrder};
ghost use Rattle.flat_circuit.specs.Circuit.{net_names};
ghost use Rattle.flat_circuit.specs.Stretch.{numbers_of};

use crate::circuit::order_of_number;
use crate::net::Net;
use scald_base::NoMemory;
use std::alloc::Global;
use std::cmp::Ordering;

/// So many bytes of a name are compared as one number, together with the net's bit.
const PART_BYTES: usize = 14;

/// So many parts of a name are compared in this way.
const PARTS: usize = 64;

/// The nets' numbers, sorted by name and bit.
pub(crate) fn by_name(alloc: Global, nets: &[Net]) -> Result<Vec<u32>, NoMemory>
    requires { length nets.now < 2 ^ 32 }
    ensures { IfOk result (λ order. IsNameOrder (net_names nets.now) order.items) }
{
    let mut order = nearly_by_name(alloc, nets)?;
    order.sort_by(|a, b| order_of_numbers(nets, *a, *b))?;
    Ok(order)
}

/// Nets of one name that follow one another, with each the next bit: those from one number to
/// before another.
#[derive(Clone, Copy)]
struct Stretch {
    /// A part of the name as a number, which is greater if it comes later.
    part: u128,
    begin: u32,
    end: u32,
}

/// The nets' numbers, stretch by stretch in the order of the first bytes of their names. That is
/// their order but for very long names, so hardly any names are compared after it.
fn nearly_by_name(alloc: Global, nets: &[Net]) -> Result<Vec<u32>, NoMemory>
    requires { length nets.now < 2 ^ 32 }
    ensures { IfOk result (λ order.
        IsPermutation (range_with_len 0 (length nets.now)) order.items) }
{
    let mut stretches = stretches(alloc, nets)?;
    sort_parts(nets, &mut stretches, 0, PARTS);
    let mut order = Vec::with_capacity(alloc, nets.len())?;
    for place in 0..stretches.len() {
        add_stretch(&mut order, stretches[place])?;
    }
    Ok(order)
}

/// Sorts stretches by so many parts of their names, of which this is the first.
fn sort_parts(nets: &[Net], stretches: &mut [Stretch], first: usize, parts: usize)
    ensures { IsPermutation (flat_map numbers_of stretches.old)
        (flat_map numbers_of stretches.new) }
{
    if parts == 0 {
        return;
    }
    read_parts(nets, stretches, first);
    stretches.sort_unstable_by_key(|stretch| stretch.part);
    let mut begin = 0;
    while begin < stretches.len() {
        let end = end_of_equal(stretches, begin);
        if end - begin > 1 {
            sort_parts(
                nets,
                &mut stretches[begin..end],
                first.saturating_add(PART_BYTES),
                parts - 1,
            );
        }
        begin = end;
    }
}

/// Reads the parts of names that begin with this byte of each.
fn read_parts(nets: &[Net], stretches: &mut [Stretch], first: usize)
    ensures { map numbers_of stretches.new ≡ map numbers_of stretches.old }
{
    for place in 0..stretches.len() {
        if let Some(net) = nets.get(stretches[place].begin as usize) {
            stretches[place].part = part_of(net, first);
        }
    }
}

/// Where those end that have the same part of their names as the one at a place.
fn end_of_equal(stretches: &[Stretch], begin: usize) -> usize
    requires { begin < length stretches.now }
    ensures after { begin < result }
    ensures within { result ≤ length stretches.now }
{
    let part = stretches[begin].part;
    let mut end = begin + 1;
    while end < stretches.len() && stretches[end].part == part {
        end += 1;
    }
    end
}

/// Puts the numbers of a stretch at the end.
fn add_stretch(order: &mut Vec<u32>, stretch: Stretch) -> Result<(), NoMemory>
    ensures { OnOk result (order.new.items ≡ order.old.items ++ numbers_of stretch) }
{
    for number in stretch.begin..stretch.end {
        order.push(number)?;
    }
    Ok(())
}

/// The stretches of all nets.
fn stretches(alloc: Global, nets: &[Net]) -> Result<Vec<Stretch>, NoMemory>
    requires { length nets.now < 2 ^ 32 }
    ensures { IfOk result (λ stretches.
        flat_map numbers_of stretches.items ≡ range_with_len 0 (length nets.now)) }
{
    let mut stretches = Vec::new(alloc);
    let mut begin = 0;
    while begin < nets.len() {
        let end = end_of(nets, begin);
        stretches.push(Stretch {
            part: 0,
            begin: begin as u32,
            end: end as u32,
        })?;
        begin = end;
    }
    Ok(stretches)
}

/// Where a stretch ends that begins at a number.
fn end_of(nets: &[Net], begin: usize) -> usize
    requires { begin < length nets.now }
    ensures after { begin < result }
    ensures within { result ≤ length nets.now }
{
    let mut end = begin + 1;
    while end < nets.len() && follows(&nets[end - 1], &nets[end]) {
        end += 1;
    }
    end
}

/// Whether a net is the next bit of another.
fn follows(before: &Net, net: &Net) -> bool {
    u32::from(net.bit) == u32::from(before.bit) + 1 && net.name == before.name
}

/// A part of a net's name as a number, from this byte on, and the bit if the name ends in it.
/// What is past the end counts 0.
fn part_of(net: &Net, first: usize) -> u128 {
    let name = net.name.as_slice();
    let rest = name.get(first..name.len()).unwrap_or(&[]);
    let mut part: u128 = 0;
    for place in 0..PART_BYTES {
        part = part << 8 | u128::from(rest.get(place).copied().unwrap_or(0));
    }
    let bit = if rest.len() <= PART_BYTES { net.bit } else { 0 };
    part << 16 | u128::from(bit)
}

fn order_of_numbers(nets: &[Net], a: u32, b: u32) -> Ordering
    ensures { result ≡ name_cmp (name_at (net_names nets.now) a) (name_at (net_names nets.now) b) }
{
    match nets.get(b as usize) {
        Some(net) => order_of_number(nets, a, net.name.as_slice(), net.bit),
        None => order_of_number(nets, a, &[], 0),
    }
}
