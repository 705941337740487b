//! The lines of one case.

ghost use Rattle.std.specs.Prelude.{◌≡◌, ◌++◌, OnErr, OnOk};
ghost use Rattle.fixpoint_engine.specs.Waves.{FitWaves, waves_of};
ghost use Rattle.listing.specs.Case.{case_line, case_lines, shown_faults, shown_waves, shows_faults, shows_waves};
ghost use Rattle.listing.specs.Text.{HasPart};

use crate::fault::add_faults;
use crate::piece::{Piece, add_line};
use crate::wave::add_waves;
use fixpoint_engine::Waves;
use flat_circuit::{Circuit, Fault, Faults};
use scald_base::{Bytes, NoMemory};
use step_values::Value;
use wave_core::CyclicWave;

/// What the report shows of each case beside the case's own line.
#[derive(Clone, Copy, PartialEq, Eq, Debug)]
pub enum Mode {
    /// Waves and faults.
    Full,
    /// Waves alone.
    Waves,
    /// Faults alone.
    Faults,
}

impl Mode {
    /// Whether waves are shown.
    fn shows_waves(self) -> bool
        ensures { result ≡ shows_waves self }
    {
        !matches!(self, Mode::Faults)
    }

    /// Whether faults are shown.
    pub(crate) fn shows_faults(self) -> bool
        ensures { result ≡ shows_faults self }
    {
        !matches!(self, Mode::Waves)
    }
}

/// What the case's own line says.
#[derive(Clone, Copy, PartialEq, Eq, Debug)]
pub struct CaseHead {
    /// The case's number; the cases of a drawing count from 1.
    pub number: u32,
    /// The rounds of the base.
    pub base: u32,
    /// The case's own rounds.
    pub rounds: u32,
    /// The tick from which on its waves hold.
    pub tick: u64,
}

/// The case's own line.
#[tactic(auto, unfolding(crate::specs::Case::case_line))]
fn add_case(out: &mut Bytes, head: CaseHead) -> Result<(), NoMemory>
    ensures ok { OnOk result (out.new ≡ out.old
        ++ case_line head.number head.base head.rounds head.tick) }
    ensures err { OnErr result (HasPart out.old out.new
        (case_line head.number head.base head.rounds head.tick)) }
{
    add_line(
        out,
        &[
            Piece::Text(b"CASE "),
            Piece::Number(u64::from(head.number)),
            Piece::Text(b" BASE "),
            Piece::Number(u64::from(head.base)),
            Piece::Text(b" ROUNDS "),
            Piece::Number(u64::from(head.rounds)),
            Piece::Text(b" T "),
            Piece::Number(head.tick),
        ],
    )
}

/// The lines of waves, if the mode shows them.
fn add_shown_waves<W: CyclicWave<Item = Value>>(
    out: &mut Bytes,
    c: &Circuit,
    waves: &Waves<W>,
    mode: Mode,
) -> Result<(), NoMemory>
    requires { FitWaves c.now waves.now }
    ensures ok { let all = waves_of waves.now in
        OnOk result (out.new ≡ out.old ++ shown_waves c.now mode all) }
    ensures err { let all = waves_of waves.now in
        OnErr result (HasPart out.old out.new (shown_waves c.now mode all)) }
{
    if mode.shows_waves() {
        add_waves(out, c, waves)
    } else {
        Ok(())
    }
}

/// The case's own line, and the lines of waves if the mode shows them.
pub(crate) fn add_case_head<W: CyclicWave<Item = Value>>(
    kept: &mut Bytes,
    c: &Circuit,
    head: CaseHead,
    waves: &Waves<W>,
    mode: Mode,
) -> Result<(), NoMemory>
    requires { FitWaves c.now waves.now }
    ensures { let all = waves_of waves.now in OnOk result (kept.new ≡ kept.old
        ++ (case_line head.number head.base head.rounds head.tick ++ shown_waves c.now mode all)) }
{
    add_case(kept, head)?;
    add_shown_waves(kept, c, waves, mode)?;
    Ok(())
}

/// The lines of faults, if the mode shows them.
fn add_shown_faults(
    out: &mut Bytes,
    c: &Circuit,
    faults: &[Fault],
    mode: Mode,
) -> Result<(), NoMemory>
    ensures ok { OnOk result (out.new ≡ out.old ++ shown_faults c.now mode faults.now) }
    ensures err { OnErr result (HasPart out.old out.new (shown_faults c.now mode faults.now)) }
{
    if mode.shows_faults() {
        add_faults(out, c, faults)
    } else {
        Ok(())
    }
}

/// Puts the lines of one case at the end of `out`: its own line; then, as the mode says, a line for
/// the wave of each net, in name order, and a line for each fault, in the order of `faults`. If
/// memory runs out, a part of these lines may stand there.
pub fn write_case<W: CyclicWave<Item = Value>>(
    c: &Circuit,
    head: CaseHead,
    waves: &Waves<W>,
    faults: &Faults,
    mode: Mode,
    out: &mut Bytes,
) -> Result<(), NoMemory>
    requires { FitWaves c.now waves.now }
    ensures ok { let all = waves_of waves.now in OnOk result (out.new
        ≡ out.old
        ++ case_lines c.now mode head.number head.base head.rounds head.tick all faults.now) }
    ensures err { let all = waves_of waves.now in OnErr result (HasPart out.old out.new
        (case_lines c.now mode head.number head.base head.rounds head.tick all faults.now)) }
{
    add_case(out, head)?;
    add_shown_waves(out, c, waves, mode)?;
    add_shown_faults(out, c, faults.as_slice(), mode)
}
