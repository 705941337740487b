//! Whole dumps.

ghost use Rattle.std.specs.Prelude.{◌≡◌, ◌++◌, ◌-◌, IfOk, OnOk};
ghost use Rattle.std.specs.List.{flat_map};
ghost use Rattle.trace_tool.specs.Change.{later_commands};
ghost use Rattle.trace_tool.specs.Dump.{changes, declarations, declared_text, dump_text, head_text, start_commands, tail_text, texts, timescale_line};
ghost use Rattle.trace_tool.specs.Stretch.{stretches};

use crate::change::{add_all, add_tick, add_time};
use crate::level::Rows;
use crate::scope::{add_moves, add_open};
use crate::stretch::{Stretch, stretches};
use crate::tick::TickLength;
use crate::variable::add_variable;
use flat_circuit::Circuit;
use listing::{Piece, add_pieces};
use scald_base::{Bytes, NoMemory};
use std::alloc::Global;

/// How long a tick is.
fn add_timescale(out: &mut Bytes, tick: TickLength) -> Result<(), NoMemory>
    ensures { OnOk result (out.new ≡ out.old ++ timescale_line tick) }
{
    add_pieces(
        out,
        &[
            Piece::Text(b"$timescale "),
            Piece::Text(tick.count.text()),
            Piece::Text(b" "),
            Piece::Text(tick.unit.text()),
            Piece::Text(b" $end\n"),
        ],
    )
}

/// How long a tick is, and the scope of the drawing.
#[tactic(auto, unfolding(crate::specs::Dump::head_text))]
fn add_head(out: &mut Bytes, tick: TickLength, name: &[u8]) -> Result<(), NoMemory>
    ensures { OnOk result (out.new ≡ out.old ++ head_text tick name.now) }
{
    add_timescale(out, tick)?;
    add_open(out, name)
}

/// A stretch, in the scopes of its name.
fn add_declared(alloc: Global, out: &mut Bytes, c: &Circuit, s: Stretch) -> Result<(), NoMemory>
    ensures { OnOk result (out.new ≡ out.old ++ declared_text c.now s) }
{
    add_moves(out, c, s.from)?;
    add_variable(alloc, out, c, s)
}

/// All stretches.
fn add_variables(
    alloc: Global,
    out: &mut Bytes,
    c: &Circuit,
    all: &[Stretch],
) -> Result<(), NoMemory>
    ensures { OnOk result (out.new ≡ out.old ++ flat_map (declared_text c.now) all.now) }
{
    for s in all {
        add_declared(alloc, out, c, *s)?;
    }
    Ok(())
}

/// The end of what is declared.
#[tactic(auto, unfolding(crate::specs::Dump::tail_text))]
fn add_tail(out: &mut Bytes, c: &Circuit) -> Result<(), NoMemory>
    ensures { OnOk result (out.new ≡ out.old ++ tail_text c.now) }
{
    c.known();
    add_moves(out, c, c.net_count())?;
    out.extend(b"$upscope $end\n$enddefinitions $end\n")
}

/// All that is declared.
#[tactic(auto, unfolding(crate::specs::Dump::declarations))]
fn add_declarations(
    alloc: Global,
    out: &mut Bytes,
    c: &Circuit,
    tick: TickLength,
    name: &[u8],
    all: &[Stretch],
) -> Result<(), NoMemory>
    requires { all.now ≡ stretches c.now }
    ensures { OnOk result (out.new ≡ out.old ++ declarations tick name.now c.now) }
{
    add_head(out, tick, name)?;
    add_variables(alloc, out, c, all)?;
    add_tail(out, c)
}

/// Every value at tick 0.
#[tactic(auto, unfolding(crate::specs::Dump::start_commands))]
fn add_start(out: &mut Bytes, c: &Circuit, rows: &Rows, all: &[Stretch]) -> Result<(), NoMemory>
    requires { all.now ≡ stretches c.now }
    ensures { OnOk result (out.new ≡ out.old ++ texts (start_commands c.now rows.now)) }
{
    add_time(out, 0)?;
    out.extend(b"$dumpvars\n")?;
    add_all(out, c, rows, all, 0)?;
    out.extend(b"$end\n")
}

/// What changes at the ticks from 1 on.
fn add_ticks(
    out: &mut Bytes,
    c: &Circuit,
    rows: &Rows,
    all: &[Stretch],
    ticks: u32,
) -> Result<(), NoMemory>
    ensures { OnOk result (out.new ≡ out.old
        ++ texts (later_commands c.now rows.now all.now 1 (ticks - 1))) }
{
    for tick in 1..ticks {
        add_tick(out, c, rows, all, tick)?;
    }
    Ok(())
}

/// All that changes.
#[tactic(auto, unfolding(crate::specs::Dump::changes))]
fn add_changes(
    out: &mut Bytes,
    c: &Circuit,
    rows: &Rows,
    all: &[Stretch],
    ticks: u32,
) -> Result<(), NoMemory>
    requires { all.now ≡ stretches c.now }
    ensures { OnOk result (out.new ≡ out.old ++ texts (changes c.now rows.now ticks)) }
{
    add_start(out, c, rows, all)?;
    add_ticks(out, c, rows, all, ticks)?;
    add_time(out, ticks)
}

/// The dump of a run of so many ticks, each of this length: `rows` has the bits of each net by its
/// number, and `name` is that of the drawing, whose scope all others are in.
#[tactic(auto, unfolding(crate::specs::Dump::dump_text))]
pub fn write_dump(
    alloc: Global,
    c: &Circuit,
    name: &[u8],
    tick: TickLength,
    rows: &Rows,
    ticks: u32,
) -> Result<Bytes, NoMemory>
    ensures { IfOk result (λ bytes. bytes ≡ dump_text tick name.now c.now rows.now ticks) }
{
    let all = stretches(alloc, c)?;
    let mut out = Bytes::new(alloc);
    add_declarations(alloc, &mut out, c, tick, name, all.as_slice())?;
    add_changes(&mut out, c, rows, all.as_slice(), ticks)?;
    Ok(out)
}
