//! Clocks and enables that never do anything.

ghost use Rattle.std.specs.Prelude.{◌≡◌, ◌++◌, ◌∷◌, ◌||◌, [], List, IfOk, OnOk, length, slice_get};
ghost use Rattle.flat_circuit.specs.Instances.{PinExists};
ghost use Rattle.fixpoint_engine.specs.Waves.{FitWaves, waves_of};
ghost use Rattle.timing_analysis.specs.Case.{Case};
ghost use Rattle.drawing_omissions.specs.Lines.{Adds};
ghost use Rattle.drawing_notes.specs.Unclocked.{AreActs, acts_at as spec_acts_at, acts_in as spec_acts_in, unclocked, unclocked_of};

use crate::searching::has_active;
use crate::{CLOCK, has_clock, target_piece};
use drawing_omissions::Notes;
use element_kinds::Form;
use fixpoint_engine::{Waves, pin_wave};
use flat_circuit::{Circuit, Pin};
use listing::{Piece, instance_piece};
use scald_base::NoMemory;
use std::alloc::Global;
use step_values::Value;
use wave_core::CyclicWave;

/// Whether the clock at a pin does something in some slot.
fn acts_at<W: CyclicWave<Item = Value>>(
    alloc: Global,
    c: &Circuit,
    waves: &Waves<W>,
    form: Form,
    pin: Pin,
) -> Result<bool, NoMemory>
    requires exists { PinExists (length c.now.nets) pin }
    requires fit { FitWaves c.now waves.now }
    ensures { IfOk result (λ does. does ≡ spec_acts_at c.now (waves_of waves.now) form pin) }
{
    let shown = pin_wave(alloc, c, waves, pin)?;
    let fold = shown.folded(alloc)?;
    Ok(has_active(form, &fold))
}

/// Whether an instance has a clock or an enable that does something in these waves.
fn acts_in<W: CyclicWave<Item = Value>>(
    alloc: Global,
    c: &Circuit,
    waves: &Waves<W>,
    number: u32,
) -> Result<bool, NoMemory>
    requires fit { FitWaves c.now waves.now }
    ensures { IfOk result (λ does.
        does ≡ spec_acts_in c.now (waves_of waves.now) (slice_get c.now.instances number)) }
{
    c.known();
    let Some(instance) = c.instance(number) else {
        return Ok(false);
    };
    if !has_clock(instance.kind) {
        return Ok(false);
    }
    match instance.pins.get(CLOCK) {
        Some(pin) => acts_at(alloc, c, waves, instance.kind.form(), *pin),
        None => Ok(false),
    }
}

/// Whether the clock of an instance did something before, or does in these waves. What did is not
/// looked at.
fn acts_too<W: CyclicWave<Item = Value>>(
    alloc: Global,
    c: &Circuit,
    waves: &Waves<W>,
    number: u32,
    before: bool,
) -> Result<bool, NoMemory>
    requires fit { FitWaves c.now waves.now }
    ensures { IfOk result (λ does. does
        ≡ (before || spec_acts_in c.now (waves_of waves.now) (slice_get c.now.instances number))) }
{
    if before {
        return Ok(true);
    }
    acts_in(alloc, c, waves, number)
}

/// Lets the marks of instances, by their numbers, say whether their clocks do something in one case
/// more.
pub(crate) fn add_acts<W: CyclicWave<Item = Value>>(
    alloc: Global,
    c: &Circuit,
    waves: &Waves<W>,
    acts: &mut [bool],
) -> Result<(), NoMemory>
    requires fit { FitWaves c.now waves.now }
    requires long { length acts.old ≡ length c.now.instances }
    ensures long { OnOk result (length acts.new ≡ length c.now.instances) }
    ensures acts { OnOk result ((cases : List Case) (one : Case) → one.waves ≡ waves_of waves.now →
        AreActs c.now cases acts.old → AreActs c.now (cases ++ one ∷ []) acts.new) }
{
    for number in 0..c.instance_count() {
        let does = acts_too(alloc, c, waves, number, acts[number as usize])?;
        acts[number as usize] = does;
    }
    Ok(())
}

/// The note on an instance, if it has a clock or an enable that does nothing.
#[tactic(auto, unfolding(crate::specs::Unclocked::unclocked_line))]
fn add_unclocked_at(notes: &mut Notes, c: &Circuit, number: u32, acts: bool) -> Result<(), NoMemory>
    ensures { OnOk result (Adds notes.old notes.new
        (unclocked_of c.now number acts (slice_get c.now.instances number))) }
{
    let Some(instance) = c.instance(number) else {
        return Ok(());
    };
    if acts || !has_clock(instance.kind) {
        return Ok(());
    }
    let Some(pin) = instance.pins.get(CLOCK) else {
        return Ok(());
    };
    notes.add(&[
        Piece::Text(b"NOTE UNCLOCKED "),
        instance_piece(c, number),
        Piece::Text(b" PIN 0 "),
        target_piece(c, pin.target),
    ])
}

/// Appends the notes on registers, latches and checkers of setup and hold whose clock or enable
/// does nothing in any case, in the order of expansion. `acts` says by the numbers of instances
/// whose does something. `NoMemory` comes if memory runs out.
pub fn add_unclocked(notes: &mut Notes, c: &Circuit, acts: &[bool]) -> Result<(), NoMemory>
    requires { length acts.now ≡ length c.now.instances }
    ensures { OnOk result ((cases : List Case) → AreActs c.now cases acts.now →
        Adds notes.old notes.new (unclocked c.now cases)) }
{
    for number in 0..c.instance_count() {
        add_unclocked_at(notes, c, number, acts[number as usize])?;
    }
    Ok(())
}
