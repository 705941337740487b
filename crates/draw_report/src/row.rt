//! The rows of a picture: bits of one name side by side with equal waves, clocks first.

ghost use Rattle.std.specs.Prelude.{◌≡◌, ◌<◌, ◌++◌, IfOk, OnOk, length};
ghost use Rattle.std.specs.List.{filter};
ghost use Rattle.fixpoint_engine.specs.Waves.{FitWaves, waves_of};
ghost use Rattle.draw_report.specs.Row.{AreInside, are_clocks, clocks_first, follows, is_alike, is_clock, is_clock_row, is_other_row, joins, named_rows, rows_of};

use crate::clock::clocks;
use crate::name::{bit_at, text_at};
use fixpoint_engine::Waves;
use flat_circuit::Circuit;
use scald_base::{List, NoMemory};
use std::alloc::Global;
use step_values::Value;
use wave_core::CyclicWave;

/// Bits of one name side by side with equal waves: the nets at the places in name order from the
/// first on, up to another that is no more of them.
#[derive(Clone, Copy)]
pub struct Row {
    pub from: u32,
    pub to: u32,
}

/// Whether the net at a place has the name of the one before it, and the next bit.
fn follows(c: &Circuit, place: u32) -> bool
    ensures { result ≡ follows c.now place }
{
    let before = place.saturating_sub(1);
    text_at(c, before) == text_at(c, place)
        && u32::from(bit_at(c, before)) + 1 == u32::from(bit_at(c, place))
}

/// Whether the net of a number is a clock.
fn is_clock(c: &Circuit, clocks: &List<bool>, net: u32) -> bool
    requires marked { clocks.now ≡ are_clocks c.now }
    requires inside { net < length c.now.nets }
    ensures { result ≡ is_clock c.now net }
{
    match clocks.get(net as usize) {
        Some(is) => *is,
        None => false,
    }
}

/// Whether the net at a place is a clock where the one before it is, and has the same wave.
fn is_alike<W: CyclicWave<Item = Value>>(
    c: &Circuit,
    waves: &Waves<W>,
    clocks: &List<bool>,
    place: u32,
) -> bool
    requires fit { FitWaves c.now waves.now }
    requires marked { clocks.now ≡ are_clocks c.now }
    requires inside { place < length c.now.nets }
    ensures { result ≡ is_alike c.now (waves_of waves.now) place }
{
    c.known();
    let before = c.net_at(place.saturating_sub(1));
    let net = c.net_at(place);
    is_clock(c, clocks, before) == is_clock(c, clocks, net) && waves.at(before).same(waves.at(net))
}

/// Whether the net at a place is in the row of the one before it.
fn joins<W: CyclicWave<Item = Value>>(
    c: &Circuit,
    waves: &Waves<W>,
    clocks: &List<bool>,
    place: u32,
) -> bool
    requires fit { FitWaves c.now waves.now }
    requires marked { clocks.now ≡ are_clocks c.now }
    requires inside { place < length c.now.nets }
    ensures { result ≡ joins c.now (waves_of waves.now) place }
{
    follows(c, place) && is_alike(c, waves, clocks, place)
}

/// The rows in name order.
fn named_rows<W: CyclicWave<Item = Value>>(
    alloc: Global,
    c: &Circuit,
    waves: &Waves<W>,
    clocks: &List<bool>,
) -> Result<List<Row>, NoMemory>
    requires fit { FitWaves c.now waves.now }
    requires marked { clocks.now ≡ are_clocks c.now }
    ensures { IfOk result (λ rows. rows ≡ named_rows c.now (waves_of waves.now)) }
{
    let mut rows = List::new(alloc);
    let count = c.net_count();
    if count == 0 {
        return Ok(rows);
    }
    let mut from = 0;
    for place in 1..count {
        if !joins(c, waves, clocks, place) {
            rows.push(Row { from, to: place })?;
            from = place;
        }
    }
    rows.push(Row { from, to: count })?;
    Ok(rows)
}

/// Whether a row is a clock's.
fn is_clock_row(c: &Circuit, clocks: &List<bool>, row: Row) -> bool
    requires marked { clocks.now ≡ are_clocks c.now }
    requires inside { row.from < length c.now.nets }
    ensures { result ≡ is_clock_row c.now row }
{
    c.known();
    is_clock(c, clocks, c.net_at(row.from))
}

/// Adds the rows that are clocks.
fn add_clocks(
    rows: &mut List<Row>,
    c: &Circuit,
    clocks: &List<bool>,
    named: &[Row],
) -> Result<(), NoMemory>
    requires marked { clocks.now ≡ are_clocks c.now }
    requires inside { AreInside c.now named.now }
    ensures { OnOk result (rows.new ≡ rows.old ++ filter (is_clock_row c.now) named.now) }
{
    for row in named {
        if is_clock_row(c, clocks, *row) {
            rows.push(*row)?;
        }
    }
    Ok(())
}

/// Adds the rows that are none.
fn add_others(
    rows: &mut List<Row>,
    c: &Circuit,
    clocks: &List<bool>,
    named: &[Row],
) -> Result<(), NoMemory>
    requires marked { clocks.now ≡ are_clocks c.now }
    requires inside { AreInside c.now named.now }
    ensures { OnOk result (rows.new
        ≡ rows.old ++ filter (is_other_row c.now) named.now) }
{
    for row in named {
        if !is_clock_row(c, clocks, *row) {
            rows.push(*row)?;
        }
    }
    Ok(())
}

/// Rows in name order, the clocks first.
fn clocks_first(
    alloc: Global,
    c: &Circuit,
    clocks: &List<bool>,
    named: &[Row],
) -> Result<List<Row>, NoMemory>
    requires marked { clocks.now ≡ are_clocks c.now }
    requires inside { AreInside c.now named.now }
    ensures { IfOk result (λ rows. rows ≡ clocks_first c.now named.now) }
{
    let mut rows = List::new(alloc);
    add_clocks(&mut rows, c, clocks, named)?;
    add_others(&mut rows, c, clocks, named)?;
    Ok(rows)
}

/// All rows of a circuit, of which it is known which nets are clocks.
fn rows_by<W: CyclicWave<Item = Value>>(
    alloc: Global,
    c: &Circuit,
    waves: &Waves<W>,
    clocks: &List<bool>,
) -> Result<List<Row>, NoMemory>
    requires fit { FitWaves c.now waves.now }
    requires marked { clocks.now ≡ are_clocks c.now }
    ensures { IfOk result (λ rows. rows ≡ rows_of c.now (waves_of waves.now)) }
{
    let named = named_rows(alloc, c, waves, clocks)?;
    clocks_first(alloc, c, clocks, named.as_slice())
}

/// All rows of a circuit: the clocks in name order, and then the others.
pub fn case_rows<W: CyclicWave<Item = Value>>(
    alloc: Global,
    c: &Circuit,
    waves: &Waves<W>,
) -> Result<List<Row>, NoMemory>
    requires { FitWaves c.now waves.now }
    ensures { IfOk result (λ rows. rows ≡ rows_of c.now (waves_of waves.now)) }
{
    let clocks = clocks(alloc, c)?;
    rows_by(alloc, c, waves, &clocks)
}
