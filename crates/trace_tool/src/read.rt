//! A trace, read from the lines of a text.
//!
//! What a line says is found by its numbers, whatever stands between them, and the line is right
//! exactly if it is the one that would be written of them.

ghost use Rattle.std.specs.Prelude.{◌≡◌, ◌≢◌, ◌==◌, ℕ, ◌≤◌, ◌++◌, Bool, List, codes, drop, length, map, slice_index_or, [], IfOk, MatchBool, MatchOption};
ghost use Rattle.flat_circuit.specs.Split.{two_delays};
ghost use Rattle.flat_circuit.specs.Circuit.{Circuit as Flat};
ghost use Rattle.flat_circuit.specs.Run.{WireFits, WiresFit};
ghost use Rattle.listing.specs.Names.{instance_name};
ghost use Rattle.listing.specs.Text.{bit_text};
ghost use Rattle.trace_sim.specs.Choice.{PickFits};
ghost use Rattle.trace_tool.specs.Trace.{head_line, instance_line, net_line};
ghost use Rattle.trace_tool.specs.Extent.{most_ticks};
ghost use Rattle.trace_tool.specs.Reading.{IsFitPick};
ghost use Rattle.trace_tool.specs.Words.{number_in as number_of};
ghost use Rattle.trace_tool.specs.Scan.{AreSmall, IsGuess, numbers_of, picked, picks_count, shown};

use crate::extent::Extent;
use crate::scan::numbers;
use crate::words::number_in;
use crate::write::{add_instance, add_net};
use element_kinds::Form;
use flat_circuit::{Circuit, Instance, Pin, Target};
use listing::{Piece, add_pieces};
use scald_base::{Bytes, List, NoMemory};
use std::alloc::Global;
use trace_sim::{Levels, pick_fits};
use vector_names::Indices;

/// The number at a place, or 0 past the last.
fn nth(found: &[u16], at: usize) -> u16
    ensures { result ≡ slice_index_or found.now at 0 }
{
    match found.get(at) {
        None => 0,
        Some(number) => *number,
    }
}

/// What follows so many bytes of a text.
fn past(text: &[u8], count: usize) -> &[u8]
    ensures { result.now ≡ drop count text.now }
{
    if count <= text.len() {
        &text[count..]
    } else {
        &[]
    }
}

/// The numbers from a place on.
fn behind(alloc: Global, found: &[u16], count: usize) -> Result<Indices, NoMemory>
    ensures { IfOk result (λ rest. rest ≡ drop count found.now) }
{
    let mut rest = List::new(alloc);
    if count <= found.len() {
        for number in &found[count..] {
            rest.push(*number)?;
        }
    }
    Ok(rest)
}

// ---- the head

/// What follows the first word of a head.
fn after_word(line: &[u8]) -> Option<&[u8]>
    ensures { MatchOption result ((rest : List ℕ) → line.now ≢ codes "TRACE " ++ rest)
        (λ rest. line.now ≡ codes "TRACE " ++ rest.now) }
{
    line.strip_prefix(b"TRACE ")
}

/// The ticks that the digits of a head say, if a trace may have so many.
fn ticks_in(extent: Extent, digits: &[u8]) -> Option<u32>
    ensures { result ≡ number_of 1 (most_ticks extent) digits.now }
{
    match number_in(1, u64::from(extent.most_ticks()), digits) {
        None => None,
        Some(ticks) => Some(ticks as u32),
    }
}

/// The ticks that a head says, if it is one of a trace that may be so long.
pub(crate) fn read_head(extent: Extent, line: &[u8]) -> Option<u32>
    ensures { MatchOption result
        ((n : ℕ) → 1 ≤ n → n ≤ most_ticks extent → line.now ≡ head_line n → ⊥)
        (λ n. (1 ≤ n) × (n ≤ most_ticks extent) × (line.now ≡ head_line n)) }
{
    match after_word(line) {
        None => None,
        Some(digits) => ticks_in(extent, digits),
    }
}

// ---- delays

/// How many delays the line of an instance shows.
fn picks_count(i: &Instance) -> usize
    ensures { result ≡ picks_count i.now.kind (two_delays i.now.kind i.now.split) }
{
    if i.kind.may_split() && i.split.is_some() {
        return 2;
    }
    match i.kind.form() {
        Form::Gate => 1,
        Form::Change => 0,
        Form::Register(_) => 1,
        Form::Latch(_) => 1,
        Form::Checker(_) => 0,
    }
}

/// The pick that so many delays show.
fn picked(count: usize, found: &[u16]) -> (u16, u16)
    ensures { result ≡ picked count found.now }
{
    if count == 0 {
        (0, 0)
    } else if count == 1 {
        (nth(found, 0), nth(found, 0))
    } else {
        (nth(found, 0), nth(found, 1))
    }
}

/// What is known of the delays of an instance: they are small.
fn know_delays(i: &Instance)
    ensures { (c : Flat) (pick : ℕ × ℕ) (wires : List ℕ) → PickFits c i.now pick wires →
        AreSmall (shown (picks_count i.now.kind (two_delays i.now.kind i.now.split)) pick) }
{
    i.delay.known();
    if let Some(split) = i.split {
        split.rise.known();
        split.fall.known();
    }
}

/// And of the wires to pins.
fn know_wires(c: &Circuit, pins: &[Pin])
    ensures { (wires : List ℕ) → WiresFit c.now.nets pins.now wires → AreSmall wires }
{
    for pin in pins {
        know_wire(c, pin.target);
    }
}

fn know_wire(c: &Circuit, target: Target)
    ensures { (wire : ℕ) → WireFits c.now.nets target wire → wire ≤ 4095 }
{
    match target {
        Target::Constant(_) => {}
        Target::Net(n) => match c.net(n) {
            None => {}
            Some(net) => net.wire.known(),
        },
    }
}

/// How many bytes the name of an instance has.
fn name_length(alloc: Global, i: &Instance) -> Result<usize, NoMemory>
    ensures { IfOk result (λ count. count ≡ length (bit_text (instance_name i.now))) }
{
    let mut name = Bytes::new(alloc);
    add_pieces(&mut name, &[Piece::Bit(i.path.as_slice(), i.bit)])?;
    Ok(name.len())
}

/// The delays that the numbers after an instance's name are, whatever stands between them.
fn guess(alloc: Global, i: &Instance, line: &[u8]) -> Result<((u16, u16), Indices), NoMemory>
    ensures { IfOk result (λ p. IsGuess i.now line.now p.0 p.1) }
{
    let length = name_length(alloc, i)?;
    let found = numbers(alloc, past(line, length))?;
    let count = picks_count(i);
    let pick = picked(count, found.as_slice());
    let wires = behind(alloc, found.as_slice(), count)?;
    Ok((pick, wires))
}

fn is_instance_line(
    alloc: Global,
    i: &Instance,
    pick: (u16, u16),
    wires: &[u16],
    line: &[u8],
) -> Result<bool, NoMemory>
    ensures { IfOk result (λ same. MatchBool same (line.now ≡ instance_line i.now pick wires.now)
        (¬ (line.now ≡ instance_line i.now pick wires.now))) }
{
    let mut text = Bytes::new(alloc);
    add_instance(&mut text, i, pick, wires)?;
    Ok(line == text.as_slice())
}

/// The delays that the line of an instance says, if it is one of a trace.
pub(crate) fn read_delays(
    alloc: Global,
    c: &Circuit,
    i: &Instance,
    line: &[u8],
) -> Result<Option<((u16, u16), Indices)>, NoMemory>
    ensures { IfOk result (λ found. MatchOption found
        ((pick : ℕ × ℕ) (wires : List ℕ) → PickFits c.now i.now pick wires →
        line.now ≡ instance_line i.now pick wires → ⊥)
        (λ p. IsFitPick c.now i.now p.0 p.1 × (line.now ≡ instance_line i.now p.0 p.1))) }
{
    know_delays(i);
    know_wires(c, i.pins.as_slice());
    let (pick, wires) = guess(alloc, i, line)?;
    if !pick_fits(c, i, pick, wires.as_slice()) {
        return Ok(None);
    }
    if !is_instance_line(alloc, i, pick, wires.as_slice(), line)? {
        return Ok(None);
    }
    Ok(Some((pick, wires)))
}

// ---- bits

/// Which bytes are the digit 1.
fn ones(alloc: Global, text: &[u8]) -> Result<Levels, NoMemory>
    ensures { IfOk result (λ row. row ≡ map (λ b. b == 49) text.now) }
{
    let mut row = List::new(alloc);
    for byte in text {
        row.push(*byte == b'1')?;
    }
    Ok(row)
}

/// How many bytes of a net's line stand before its bits.
fn front_length(alloc: Global, c: &Circuit, net: u32) -> Result<usize, NoMemory>
    ensures { IfOk result (λ count. count ≡ length (net_line c.now net [])) }
{
    let mut text = Bytes::new(alloc);
    add_net(&mut text, c, net, &[])?;
    Ok(text.len())
}

fn is_net_line(
    alloc: Global,
    c: &Circuit,
    net: u32,
    row: &[bool],
    line: &[u8],
) -> Result<bool, NoMemory>
    ensures { IfOk result (λ same. MatchBool same (line.now ≡ net_line c.now net row.now)
        (¬ (line.now ≡ net_line c.now net row.now))) }
{
    let mut text = Bytes::new(alloc);
    add_net(&mut text, c, net, row)?;
    Ok(line == text.as_slice())
}

/// The bits that the line of a net says, if it is one of a trace of so many ticks.
pub(crate) fn read_bits(
    alloc: Global,
    c: &Circuit,
    net: u32,
    ticks: u32,
    line: &[u8],
) -> Result<Option<Levels>, NoMemory>
    ensures { IfOk result (λ found. MatchOption found
        ((row : List Bool) → length row ≡ ticks → line.now ≡ net_line c.now net row → ⊥)
        (λ row. (length row ≡ ticks) × (line.now ≡ net_line c.now net row))) }
{
    let length = front_length(alloc, c, net)?;
    let digits = past(line, length);
    if digits.len() != ticks as usize {
        return Ok(None);
    }
    let row = ones(alloc, digits)?;
    if !is_net_line(alloc, c, net, row.as_slice(), line)? {
        return Ok(None);
    }
    Ok(Some(row))
}
