//! The lines of waves.

ghost use Rattle.std.specs.Prelude.{◌≡◌, ◌++◌, ◌<◌, length, OnErr, OnOk};
ghost use Rattle.fixpoint_engine.specs.Waves.{FitWaves, waves_of};
ghost use Rattle.listing.specs.Wave.{wave_line, wave_lines};
ghost use Rattle.listing.specs.Text.{HasPart};

use crate::names::{net_at, net_piece};
use crate::piece::{Piece, add_line, add_pieces};
use crate::run::add_runs;
use fixpoint_engine::Waves;
use flat_circuit::Circuit;
use scald_base::{Bytes, NoMemory};
use step_values::Value;
use wave_core::CyclicWave;

/// The line of a net's wave: its skew, in ticks, and its runs.
fn add_wave<W: CyclicWave<Item = Value>>(
    out: &mut Bytes,
    c: &Circuit,
    waves: &Waves<W>,
    net: u32,
) -> Result<(), NoMemory>
    requires { net < length waves.now }
    ensures ok { let all = waves_of waves.now in
        OnOk result (out.new ≡ out.old ++ wave_line c.now all net) }
    ensures err { let all = waves_of waves.now in
        OnErr result (HasPart out.old out.new (wave_line c.now all net)) }
{
    let found = waves.at(net);
    let before = [
        Piece::Text(b"WAVE "),
        net_piece(c, net),
        Piece::Text(b" SKEW "),
        Piece::Number(u64::from(found.skew())),
    ];
    add_pieces(out, &before)?;
    add_runs(out, found.wave())?;
    add_line(out, &[])
}

/// The lines of all nets' waves, in name order.
pub fn add_waves<W: CyclicWave<Item = Value>>(
    out: &mut Bytes,
    c: &Circuit,
    waves: &Waves<W>,
) -> Result<(), NoMemory>
    requires { FitWaves c.now waves.now }
    ensures ok { let all = waves_of waves.now in
        OnOk result (out.new ≡ out.old ++ wave_lines c.now all) }
    ensures err { let all = waves_of waves.now in
        OnErr result (HasPart out.old out.new (wave_lines c.now all)) }
{
    c.known();
    for place in 0..c.net_count() {
        add_wave(out, c, waves, net_at(c, place))?;
    }
    Ok(())
}
