//! Checkers that ask nothing.

ghost use Rattle.std.specs.Prelude.{◌≡◌, slice_get, OnOk};
ghost use Rattle.drawing_notes.specs.Idle.{asks_nothing, idle, idle_at, is_idle};
ghost use Rattle.drawing_omissions.specs.Lines.{Adds};

use drawing_omissions::Notes;
use element_kinds::Check;
use flat_circuit::{Circuit, Limits};
use listing::{Piece, instance_piece};
use scald_base::NoMemory;

/// Whether limits ask nothing of any run, by what is checked.
fn asks_nothing(check: Option<Check>, limits: Limits) -> bool
    ensures { result ≡ asks_nothing check limits }
{
    match check {
        None => false,
        Some(Check::SetupHold) => limits.setup() == 0 && limits.hold() == 0,
        Some(Check::RiseFall) => false,
        Some(Check::MinPulse) => limits.high() <= 1 && limits.low() <= 1,
    }
}

/// Whether the instance is a checker that asks nothing.
fn is_idle(c: &Circuit, number: u32) -> bool
    ensures { result ≡ is_idle (slice_get c.now.instances number) }
{
    match c.instance(number) {
        Some(instance) => asks_nothing(instance.kind.check(), instance.limits),
        None => false,
    }
}

/// The note on an instance, if it is such a checker.
#[tactic(auto, unfolding(crate::specs::Idle::idle_line))]
fn add_idle_at(notes: &mut Notes, c: &Circuit, number: u32) -> Result<(), NoMemory>
    ensures { OnOk result (Adds notes.old notes.new (idle_at c.now number)) }
{
    if is_idle(c, number) {
        notes.add(&[Piece::Text(b"NOTE IDLE "), instance_piece(c, number)])?;
    }
    Ok(())
}

/// The notes on checkers whose limits ask nothing of any run, in the order of expansion.
pub fn add_idle(notes: &mut Notes, c: &Circuit) -> Result<(), NoMemory>
    ensures { OnOk result (Adds notes.old notes.new (idle c.now)) }
{
    for number in 0..c.instance_count() {
        add_idle_at(notes, c, number)?;
    }
    Ok(())
}
