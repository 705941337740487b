//! Checkers whose input is launched by their own clock.

ghost use Rattle.std.specs.Prelude.{◌≡◌, ◌<◌, ◌&&◌, ◌∷◌, [], ℕ, Bool, Some, IfOk, OnOk, length, slice_get};
ghost use Rattle.flat_circuit.specs.Circuit.{driver};
ghost use Rattle.fixpoint_engine.specs.Settled.{marked_in};
ghost use Rattle.fixpoint_engine.specs.Waves.{FitWaves, waves_of};
ghost use Rattle.case_analysis.specs.Found.{Extends};
ghost use Rattle.drawing_notes.specs.Paths.{TellsLaunches};
ghost use Rattle.drawing_notes.specs.Search.{is_clocked_by as spec_clocked};
ghost use Rattle.drawing_notes.specs.Seen.{IsSeen, Sees};
ghost use Rattle.drawing_omissions.specs.Lines.{Adds};
ghost use Rattle.drawing_notes.specs.Common.{AreRaisedTicks, common, common_of, skew_at as spec_skew_at, skew_in, ticks_by};
ghost use Rattle.drawing_notes.specs.Doubts.{AreCommon, IsLaunched, WasFound, launches_to};

use crate::doubts::{doubt_about, doubts};
use crate::passing::View;
use crate::skews::{add_skews, skew_at};
use crate::{CLOCK, Found, is_storage, pin_net};
use drawing_omissions::Notes;
use fixpoint_engine::{NetSet, Waves, output_of, readers_of};
use flat_circuit::{Circuit, Instance};
use listing::{Piece, instance_piece, net_piece};
use scald_base::NoMemory;
use std::alloc::Global;
use step_values::Value;
use wave_core::CyclicWave;

/// Whether it is storage whose clock or enable is on a net.
fn is_clocked_by(instance: &Instance, clock: u32) -> bool
    ensures { result ≡ spec_clocked clock (Some instance.now) }
{
    if !is_storage(instance.kind) {
        return false;
    }
    match pin_net(instance, CLOCK) {
        Some(net) => net == clock,
        None => false,
    }
}

/// Appends what an instance drives, if it is storage whose clock or enable is on a net, and what
/// it drives is within the set.
fn add_driven(
    found: &mut Found,
    c: &Circuit,
    within: &NetSet,
    clock: u32,
    number: u32,
) -> Result<(), NoMemory>
    requires { length found.old.marks ≡ length c.now.nets }
    ensures { OnOk result (Extends (λ i. marked_in within.now i
        && launches_to clock (slice_get c.now.instances number) i) found.old found.new) }
{
    c.known();
    let Some(instance) = c.instance(number) else {
        return Ok(());
    };
    if !is_clocked_by(instance, clock) {
        return Ok(());
    }
    match output_of(c, number) {
        Some(net) if within.has(net) => found.add(net),
        _ => Ok(()),
    }
}

/// Appends the nets within the set that storage drives whose clock or enable is on a net.
fn add_launched(found: &mut Found, c: &Circuit, within: &NetSet, clock: u32) -> Result<(), NoMemory>
    requires each_net { length found.old.marks ≡ length c.now.nets }
    requires exists { clock < length c.now.nets }
    ensures { OnOk result (Extends (λ i. marked_in within.now i
        && spec_clocked clock (driver c.now i)) found.old found.new) }
{
    c.known();
    for reader in readers_of(c, clock) {
        add_driven(found, c, within, clock, *reader)?;
    }
    Ok(())
}

/// Finds exactly what a clock launches, in place of what was found before.
fn search<W: CyclicWave<Item = Value>>(
    found: &mut Found,
    view: &View<W>,
    clock: u32,
) -> Result<(), NoMemory>
    requires sees { IsSeen view.now.circuit.now view.now.waves.now view.now.within.now
        view.now.held.now }
    requires each_net { length found.old.marks ≡ length view.now.circuit.now.nets }
    requires exists { clock < length view.now.circuit.now.nets }
    ensures each_net { OnOk result (length found.new.marks ≡ length view.now.circuit.now.nets) }
    ensures is { let v = view.now in OnOk result ((looped : ℕ → Bool) →
        Sees v.circuit.now looped v.waves.now v.within.now v.held.now →
        IsLaunched v.circuit.now looped (waves_of v.waves.now) clock found.new.marks) }
{
    found.clear();
    add_launched(found, view.circuit, view.within, clock)?;
    found.follow_open(view)?;
    Ok(())
}

/// The same, if what was found before is what the last search was for, if there was one: nothing
/// is done if that was for the same clock.
fn find_launched<W: CyclicWave<Item = Value>>(
    found: &mut Found,
    view: &View<W>,
    last: Option<u32>,
    clock: u32,
) -> Result<(), NoMemory>
    requires sees { IsSeen view.now.circuit.now view.now.waves.now view.now.within.now
        view.now.held.now }
    requires each_net { length found.old.marks ≡ length view.now.circuit.now.nets }
    requires exists { clock < length view.now.circuit.now.nets }
    ensures each_net { OnOk result (length found.new.marks ≡ length view.now.circuit.now.nets) }
    ensures is { let v = view.now in OnOk result ((looped : ℕ → Bool) →
        Sees v.circuit.now looped v.waves.now v.within.now v.held.now →
        WasFound v.circuit.now looped (waves_of v.waves.now) last found.old.marks →
        IsLaunched v.circuit.now looped (waves_of v.waves.now) clock found.new.marks) }
{
    match last {
        Some(same) if same == clock => Ok(()),
        _ => search(found, view, clock),
    }
}

/// Which instances are checkers whose input is launched by their own clock, if that may be late
/// as a whole in the case, by their numbers. It costs what each such clock reaches.
fn common_checkers<W: CyclicWave<Item = Value>>(
    alloc: Global,
    view: &View<W>,
    skews: &[u16],
) -> Result<Vec<bool>, NoMemory>
    requires sees { IsSeen view.now.circuit.now view.now.waves.now view.now.within.now
        view.now.held.now }
    ensures long { IfOk result (λ common.
        length common.items ≡ length view.now.circuit.now.instances) }
    ensures are { let v = view.now in IfOk result (λ common. (looped : ℕ → Bool)
        (launched : ℕ → ℕ → Bool) →
        Sees v.circuit.now looped v.waves.now v.within.now v.held.now →
        TellsLaunches v.circuit.now looped (waves_of v.waves.now) launched →
        AreCommon v.circuit.now launched (spec_skew_at skews.now) common.items) }
{
    let c = view.circuit;
    c.known();
    let doubts = doubts(alloc, c, skews)?;
    let mut common = vec![in alloc; false; c.instance_count() as usize]?;
    let mut found = Found::new(alloc, c.net_count())?;
    let mut last = None;
    for doubt in doubts.as_slice() {
        find_launched(&mut found, view, last, doubt.clock)?;
        last = Some(doubt.clock);
        common[doubt.checker as usize] = found.set().has(doubt.input);
    }
    Ok(common)
}

/// The skew of the clock of a checker, if it launches the checker's input.
fn ticks_of(c: &Circuit, skews: &[u16], number: u32, is_common: bool) -> u16
    ensures { result ≡ ticks_by c.now (spec_skew_at skews.now) number is_common }
{
    if !is_common {
        return 0;
    }
    match doubt_about(c, skews, number) {
        Some(doubt) => skew_at(skews, doubt.clock),
        None => 0,
    }
}

/// The skew of each net in a case.
fn skews<W: CyclicWave<Item = Value>>(
    alloc: Global,
    c: &Circuit,
    waves: &Waves<W>,
) -> Result<Vec<u16>, NoMemory>
    requires { FitWaves c.now waves.now }
    ensures { IfOk result (λ skews. spec_skew_at skews.items ≡ skew_in (waves_of waves.now)) }
{
    let mut skews = vec![in alloc; 0; c.net_count() as usize]?;
    add_skews(c, waves, &mut skews);
    Ok(skews)
}

/// Raises the ticks of each checker, by its number, to those of one case more.
pub(crate) fn raise_ticks<W: CyclicWave<Item = Value>>(
    alloc: Global,
    view: &View<W>,
    ticks: &mut [u16],
) -> Result<(), NoMemory>
    requires sees { IsSeen view.now.circuit.now view.now.waves.now view.now.within.now
        view.now.held.now }
    requires long { length ticks.old ≡ length view.now.circuit.now.instances }
    ensures { let v = view.now in OnOk result ((looped : ℕ → Bool) (launched : ℕ → ℕ → Bool) →
        Sees v.circuit.now looped v.waves.now v.within.now v.held.now →
        TellsLaunches v.circuit.now looped (waves_of v.waves.now) launched →
        AreRaisedTicks v.circuit.now (waves_of v.waves.now) launched ticks.old ticks.new) }
{
    let c = view.circuit;
    let skews = skews(alloc, c, view.waves)?;
    let common = common_checkers(alloc, view, &skews)?;
    for number in 0..c.instance_count() {
        let place = number as usize;
        let more = ticks_of(c, &skews, number, common[place]);
        ticks[place] = ticks[place].max(more);
    }
    Ok(())
}

/// The note on a checker, if its clock launches its input, so many ticks late as a whole.
#[tactic(auto, unfolding(crate::specs::Common::common_line))]
fn add_common_at(notes: &mut Notes, c: &Circuit, number: u32, ticks: u16) -> Result<(), NoMemory>
    ensures { OnOk result (Adds notes.old notes.new
        (common_of c.now number ticks (slice_get c.now.instances number))) }
{
    let Some(instance) = c.instance(number) else {
        return Ok(());
    };
    let Some(clock) = pin_net(instance, CLOCK) else {
        return Ok(());
    };
    if ticks == 0 {
        return Ok(());
    }
    notes.add(&[
        Piece::Text(b"NOTE COMMON "),
        instance_piece(c, number),
        Piece::Text(b" "),
        net_piece(c, clock),
        Piece::Text(b" TICKS "),
        Piece::Number(u64::from(ticks)),
    ])
}

/// Appends the notes on checkers to whose input a path leads from storage on their own clock net,
/// if that net's wave may be late as a whole, in the order of expansion, by these ticks of each
/// instance. `NoMemory` comes if memory runs out.
pub fn add_common(notes: &mut Notes, c: &Circuit, ticks: &[u16]) -> Result<(), NoMemory>
    requires { length ticks.now ≡ length c.now.instances }
    ensures { OnOk result (Adds notes.old notes.new (common c.now (spec_skew_at ticks.now))) }
{
    for number in 0..c.instance_count() {
        add_common_at(notes, c, number, ticks[number as usize])?;
    }
    Ok(())
}
