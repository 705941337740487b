//! The bits of a run at its ticks.

ghost use Rattle.std.specs.Prelude.{◌≡◌, ◌-◌, [], ◌∷◌, ◌++◌, OnOk, slice_index_or};
ghost use Rattle.std.specs.List.{flat_map};
ghost use Rattle.trace_tool.specs.Change.{digit_text, level, levels, steps};

use crate::stretch::Stretch;
use flat_circuit::Circuit;
use scald_base::{Bytes, List, NoMemory};

/// The bits of all nets, by their numbers: a bit for each tick.
pub type Rows = List<List<bool>>;

/// The bits of a net; none past the last.
fn row(rows: &Rows, net: u32) -> &[bool]
    ensures { result.now ≡ slice_index_or rows.now net [] }
{
    match rows.get(net as usize) {
        None => &[],
        Some(row) => row.as_slice(),
    }
}

/// The bit of the net at a place at a tick; past the last tick, 0.
fn level(c: &Circuit, rows: &Rows, place: u32, tick: u32) -> bool
    ensures { result ≡ level c.now rows.now place tick }
{
    match row(rows, c.net_at(place)).get(tick as usize) {
        None => false,
        Some(one) => *one,
    }
}

/// Whether a bit of the stretch is another than at the tick before.
pub fn steps(c: &Circuit, rows: &Rows, s: Stretch, tick: u32) -> bool
    ensures { result ≡ steps c.now rows.now tick s }
{
    let before = tick.saturating_sub(1);
    let mut left = s.width();
    while left > 0 {
        left -= 1;
        let place = s.from + left;
        if level(c, rows, place, tick) != level(c, rows, place, before) {
            return true;
        }
    }
    false
}

/// The digit of a bit.
fn digit(one: bool) -> u8
    ensures { result ∷ [] ≡ digit_text one }
{
    if one { b'1' } else { b'0' }
}

/// The digits of a stretch at a tick, the highest bit first.
pub fn add_levels(
    out: &mut Bytes,
    c: &Circuit,
    rows: &Rows,
    s: Stretch,
    tick: u32,
) -> Result<(), NoMemory>
    ensures { OnOk result (out.new ≡ out.old
        ++ flat_map digit_text (levels c.now rows.now tick s.from (s.to - s.from))) }
{
    let mut left = s.width();
    while left > 0 {
        left -= 1;
        out.push(digit(level(c, rows, s.from + left, tick)))?;
    }
    Ok(())
}
