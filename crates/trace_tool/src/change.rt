//! The commands that say which values variables have.

ghost use Rattle.std.specs.Prelude.{◌≡◌, ◌++◌, ◌-◌, OnOk, map};
ghost use Rattle.std.specs.List.{flat_map, list_any};
ghost use Rattle.trace_tool.specs.Change.{Time, command_text, levels, steps, tick_commands, value_if, value_of, vector_text};
ghost use Rattle.trace_tool.specs.Dump.{texts};
ghost use Rattle.trace_tool.specs.Variable.{code_of};

use crate::code::add_code;
use crate::level::{Rows, add_levels, steps};
use crate::stretch::Stretch;
use flat_circuit::Circuit;
use listing::{Piece, add_pieces};
use scald_base::{Bytes, NoMemory};

/// What follows stands at this tick.
pub fn add_time(out: &mut Bytes, tick: u32) -> Result<(), NoMemory>
    ensures { OnOk result (out.new ≡ out.old ++ command_text (Time tick)) }
{
    add_pieces(
        out,
        &[
            Piece::Text(b"#"),
            Piece::Number(u64::from(tick)),
            Piece::Byte(b'\n'),
        ],
    )
}

/// The value of a variable of one bit.
fn add_bit(out: &mut Bytes, c: &Circuit, rows: &Rows, s: Stretch, tick: u32) -> Result<(), NoMemory>
    requires { s.to - s.from ≡ 1 }
    ensures { OnOk result (out.new ≡ out.old ++ command_text (value_of c.now rows.now tick s)) }
{
    add_levels(out, c, rows, s, tick)?;
    add_code(out, s.number)?;
    out.push(b'\n')
}

/// The value of a variable of several bits.
fn add_bits(
    out: &mut Bytes,
    c: &Circuit,
    rows: &Rows,
    s: Stretch,
    tick: u32,
) -> Result<(), NoMemory>
    ensures { OnOk result (out.new ≡ out.old ++ vector_text (code_of s.number)
        (levels c.now rows.now tick s.from (s.to - s.from))) }
{
    out.push(b'b')?;
    add_levels(out, c, rows, s, tick)?;
    out.push(b' ')?;
    add_code(out, s.number)?;
    out.push(b'\n')
}

/// The value of a stretch at a tick.
#[tactic(auto, using(crate::proofs::Levels::vector_is))]
fn add_value(
    out: &mut Bytes,
    c: &Circuit,
    rows: &Rows,
    s: Stretch,
    tick: u32,
) -> Result<(), NoMemory>
    ensures { OnOk result (out.new ≡ out.old ++ command_text (value_of c.now rows.now tick s)) }
{
    if s.width() == 1 {
        add_bit(out, c, rows, s, tick)
    } else {
        add_bits(out, c, rows, s, tick)
    }
}

/// The values of all stretches at a tick.
pub fn add_all(
    out: &mut Bytes,
    c: &Circuit,
    rows: &Rows,
    all: &[Stretch],
    tick: u32,
) -> Result<(), NoMemory>
    ensures { OnOk result (out.new ≡ out.old
        ++ texts (map (value_of c.now rows.now tick) all.now)) }
{
    for s in all {
        add_value(out, c, rows, *s, tick)?;
    }
    Ok(())
}

/// The value of a stretch at a tick, if it is another than at the tick before.
fn add_if(out: &mut Bytes, c: &Circuit, rows: &Rows, s: Stretch, tick: u32) -> Result<(), NoMemory>
    ensures { OnOk result (out.new ≡ out.old ++ texts (value_if c.now rows.now tick s)) }
{
    if steps(c, rows, s, tick) {
        add_value(out, c, rows, s, tick)
    } else {
        Ok(())
    }
}

/// The values of those that change at a tick.
fn add_changed(
    out: &mut Bytes,
    c: &Circuit,
    rows: &Rows,
    all: &[Stretch],
    tick: u32,
) -> Result<(), NoMemory>
    ensures { OnOk result (out.new ≡ out.old
        ++ texts (flat_map (value_if c.now rows.now tick) all.now)) }
{
    for s in all {
        add_if(out, c, rows, *s, tick)?;
    }
    Ok(())
}

/// Whether one of them changes at a tick.
fn any_steps(c: &Circuit, rows: &Rows, all: &[Stretch], tick: u32) -> bool
    ensures { result ≡ list_any (steps c.now rows.now tick) all.now }
{
    all.iter().any(|s| steps(c, rows, *s, tick))
}

/// What changes at a tick, if anything does.
pub fn add_tick(
    out: &mut Bytes,
    c: &Circuit,
    rows: &Rows,
    all: &[Stretch],
    tick: u32,
) -> Result<(), NoMemory>
    ensures { OnOk result (out.new ≡ out.old
        ++ texts (tick_commands c.now rows.now all.now tick)) }
{
    if any_steps(c, rows, all, tick) {
        add_time(out, tick)?;
        add_changed(out, c, rows, all, tick)
    } else {
        Ok(())
    }
}
