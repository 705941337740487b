//! Which nets are shown if only those below a path are asked for, and what they leave of rows.

ghost use Rattle.std.specs.Prelude.{◌≡◌, ◌++◌, ◌<◌, IfOk, OnOk, length};
ghost use Rattle.std.specs.List.{filter, flat_map, list_any, range_with_len};
ghost use Rattle.std.specs.Option.{option_copied};
ghost use Rattle.fixpoint_engine.specs.Waves.{FitWaves, waves_of};
ghost use Rattle.draw_report.specs.Below.{HaveNets, has_below, is_below, is_row_below, parts, rows_below};
ghost use Rattle.draw_report.specs.Row.{AreInside, rows_of};

use crate::row::{Row, case_rows};
use fixpoint_engine::Waves;
use flat_circuit::Circuit;
use listing::{add_pieces, net_piece};
use scald_base::{Bytes, List, NoMemory};
use std::alloc::Global;
use step_values::Value;
use wave_core::CyclicWave;

/// Whether the text of the net at a place in name order begins with a path.
fn is_below(alloc: Global, c: &Circuit, path: &[u8], place: u32) -> Result<bool, NoMemory>
    ensures { IfOk result (λ is. is ≡ is_below c.now path.now place) }
{
    let mut text = Bytes::new(alloc);
    add_pieces(&mut text, &[net_piece(c, c.net_at(place))])?;
    Ok(text.as_slice().starts_with(path))
}

/// Whether some net is below a path.
fn some_below(alloc: Global, c: &Circuit, path: &[u8]) -> Result<bool, NoMemory>
    ensures { IfOk result (λ has. has ≡ list_any (is_below c.now path.now)
        (range_with_len 0 (length c.now.nets))) }
{
    for place in 0..c.net_count() {
        let is = is_below(alloc, c, path, place)?;
        if is {
            return Ok(true);
        }
    }
    Ok(false)
}

/// Whether some net is below the path that is asked for, if one is.
pub fn has_below(alloc: Global, c: &Circuit, under: Option<&[u8]>) -> Result<bool, NoMemory>
    ensures { IfOk result (λ has. has ≡ has_below c.now (option_copied under.entry)) }
{
    match under {
        None => Ok(true),
        Some(path) => some_below(alloc, c, path),
    }
}

/// Adds a row, cut where nets below the path and others meet.
fn add_parts(
    out: &mut List<Row>,
    alloc: Global,
    c: &Circuit,
    path: &[u8],
    row: Row,
) -> Result<(), NoMemory>
    requires { row.from < row.to }
    ensures { OnOk result (out.new ≡ out.old ++ parts c.now path.now row) }
{
    let mut from = row.from;
    for place in row.from + 1..row.to {
        let before = is_below(alloc, c, path, place - 1)?;
        let here = is_below(alloc, c, path, place)?;
        if before != here {
            out.push(Row { from, to: place })?;
            from = place;
        }
    }
    out.push(Row { from, to: row.to })
}

/// Rows, each cut where nets below the path and others meet.
fn all_parts(alloc: Global, c: &Circuit, path: &[u8], rows: &[Row]) -> Result<List<Row>, NoMemory>
    requires { HaveNets rows.now }
    ensures { IfOk result (λ all. all ≡ flat_map (parts c.now path.now) rows.now) }
{
    let mut all = List::new(alloc);
    for row in rows {
        add_parts(&mut all, alloc, c, path, *row)?;
    }
    Ok(all)
}

/// Those rows that begin below the path.
fn begun_below(alloc: Global, c: &Circuit, path: &[u8], rows: &[Row]) -> Result<List<Row>, NoMemory>
    ensures { IfOk result (λ some. some ≡ filter (is_row_below c.now path.now) rows.now) }
{
    let mut some = List::new(alloc);
    for row in rows {
        let is = is_below(alloc, c, path, row.from)?;
        if is {
            some.push(*row)?;
        }
    }
    Ok(some)
}

/// What is shown of rows: their nets below the path that is asked for, if one is.
fn rows_below(
    alloc: Global,
    c: &Circuit,
    under: Option<&[u8]>,
    rows: List<Row>,
) -> Result<List<Row>, NoMemory>
    requires { HaveNets rows }
    ensures { IfOk result (λ some. some ≡ rows_below c.now (option_copied under.entry) rows) }
{
    match under {
        None => Ok(rows),
        Some(path) => {
            let parts = all_parts(alloc, c, path, rows.as_slice())?;
            begun_below(alloc, c, path, parts.as_slice())
        }
    }
}

/// The rows of a circuit, or those below a path: the clocks in name order, and then the others.
pub fn panel_rows<W: CyclicWave<Item = Value>>(
    alloc: Global,
    c: &Circuit,
    waves: &Waves<W>,
    under: Option<&[u8]>,
) -> Result<List<Row>, NoMemory>
    requires { FitWaves c.now waves.now }
    ensures is { IfOk result (λ rows. rows
        ≡ rows_below c.now (option_copied under.entry) (rows_of c.now (waves_of waves.now))) }
    ensures inside { IfOk result (AreInside c.now) }
{
    let rows = case_rows(alloc, c, waves)?;
    rows_below(alloc, c, under, rows)
}
