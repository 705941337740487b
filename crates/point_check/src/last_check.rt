//! The last checker that was held against its clock: the checkers of a vector mostly ask the same
//! of the same waves.

ghost use Rattle.std.specs.Prelude.{◌≡◌, ℕ, IfOk, IfSome, IsTrue, length};
ghost use Rattle.std.specs.Option.{option_map};
ghost use Rattle.scald_base.specs.Time.{period};
ghost use Rattle.flat_circuit.specs.Instances.{PinExists};
ghost use Rattle.pin_waves.specs.Pin.{pin_wave as wave_behind};
ghost use Rattle.fixpoint_engine.specs.Waves.{FitWaves, waves_of, pin_wave as wave_shown};
ghost use Rattle.point_check.specs.Point.{checker_fault as fault_of_checker};
ghost use Rattle.point_check.specs.Again.{Shows, of_instance as fault_for};

use fixpoint_engine::{Waves, wire_behind};
use flat_circuit::{Circuit, Fault, Kind, Limits, Pin, Target};
use scald_base::{Delay, NoMemory};
use skew_algebra::Skewed;
use std::alloc::Global;
use step_values::Value;
use wave_core::CyclicWave;

/// What a checker asks of its input: its kind and its number, its setup and hold times, and the
/// pins of its clock and its input.
#[derive(Clone, Copy, Drop)]
pub struct Constraint {
    pub kind: Kind,
    pub instance: u32,
    pub limits: Limits,
    pub clock: Pin,
    pub input: Pin,
}

/// The wave of the net that a pin is on, with the bounds of the wire that leads from there, in
/// ticks, and whether the pin shows the complement.
#[derive(Drop)]
pub struct Shown<W: CyclicWave<Item = Value>> {
    wave: Skewed<W>,
    wire: Delay,
    inverted: bool,
}

impl<W: CyclicWave<Item = Value>> Shown<W> {
    /// That of a pin; `None` if it is on a constant.
    #[tactic(auto, using(crate::proofs::Again::shows_net))]
    fn of(
        alloc: Global,
        c: &Circuit,
        waves: &Waves<W>,
        pin: Pin,
    ) -> Result<Option<Shown<W>>, NoMemory>
        requires exists { PinExists (length c.now.nets) pin }
        requires fit { FitWaves c.now waves.now }
        ensures { IfOk result (λ found. IfSome found (λ s.
            Shows c.now (waves_of waves.now) s.wave s.wire s.inverted pin)) }
    {
        match pin.target {
            Target::Net(net) => {
                let wave = waves.at(net).copy(alloc)?;
                Ok(Some(Shown {
                    wave,
                    wire: wire_behind(c, pin.target),
                    inverted: pin.inverted,
                }))
            }
            Target::Constant(_) => Ok(None),
        }
    }

    /// Whether this is seen to be that of a pin.
    #[tactic(auto, using(crate::proofs::Again::shows_bounds))]
    fn is_of(&self, c: &Circuit, waves: &Waves<W>, pin: Pin) -> bool
        requires exists { PinExists (length c.now.nets) pin }
        requires fit { FitWaves c.now waves.now }
        ensures { IsTrue result →
            Shows c.now (waves_of waves.now) self.now.wave self.now.wire self.now.inverted pin }
    {
        let Target::Net(net) = pin.target else {
            return false;
        };
        let wire = wire_behind(c, pin.target);
        if self.inverted != pin.inverted {
            return false;
        }
        if self.wire.min != wire.min || self.wire.max != wire.max {
            return false;
        }
        self.wave.same(waves.at(net))
    }
}

/// A checker, what its pins are on, and its fault, if it has one.
#[derive(Drop)]
struct Checked<W: CyclicWave<Item = Value>> {
    asked: Constraint,
    clock: Shown<W>,
    input: Shown<W>,
    found: Option<Fault>,
    ghost is: { (k : ℕ) → option_map (fault_for k) found
        ≡ fault_of_checker asked.kind (length clock.wave.cells) k
        (wave_behind clock.wave clock.wire clock.inverted)
        (wave_behind input.wave input.wire input.inverted) asked.limits },
}

/// The same fault of another instance.
fn for_instance(fault: Fault, instance: u32) -> Fault
    ensures { result ≡ fault_for instance fault }
{
    match fault {
        Fault::Point {
            kind,
            instance: _,
            edge,
            slot,
            value,
        } => Fault::Point {
            kind,
            instance,
            edge,
            slot,
            value,
        },
        Fault::Width {
            instance: _,
            high,
            from,
            width,
        } => Fault::Width {
            instance,
            high,
            from,
            width,
        },
        Fault::Hazard {
            instance: _,
            slot,
            pin,
        } => Fault::Hazard {
            instance,
            slot,
            pin,
        },
        Fault::Assertion { net, slot, value } => Fault::Assertion { net, slot, value },
    }
}

impl<W: CyclicWave<Item = Value>> Checked<W> {
    /// Whether a checker asks the same of the same waves.
    fn is_again(&self, c: &Circuit, waves: &Waves<W>, asked: Constraint) -> bool
        requires clock { PinExists (length c.now.nets) asked.clock }
        requires input { PinExists (length c.now.nets) asked.input }
        requires fit { FitWaves c.now waves.now }
        ensures kind { IsTrue result → self.now.asked.kind ≡ asked.kind }
        ensures limits { IsTrue result → self.now.asked.limits ≡ asked.limits }
        ensures clock { IsTrue result → Shows c.now (waves_of waves.now)
            self.now.clock.wave self.now.clock.wire self.now.clock.inverted asked.clock }
        ensures input { IsTrue result → Shows c.now (waves_of waves.now)
            self.now.input.wave self.now.input.wire self.now.input.inverted asked.input }
    {
        if self.asked.kind != asked.kind {
            return false;
        }
        if self.asked.limits != asked.limits {
            return false;
        }
        self.clock.is_of(c, waves, asked.clock) && self.input.is_of(c, waves, asked.input)
    }
}

/// The last checker, with its fault.
#[derive(Drop)]
pub struct LastCheck<W: CyclicWave<Item = Value>> {
    kept: Option<Checked<W>>,
}

impl<W: CyclicWave<Item = Value>> LastCheck<W> {
    /// Nothing was checked yet.
    pub fn new() -> LastCheck<W> {
        LastCheck { kept: None }
    }

    /// The fault of a checker, if it asks the same of the same waves as the last one.
    #[tactic(auto, using(crate::proofs::Again::found_is))]
    pub fn found(&self, c: &Circuit, waves: &Waves<W>, asked: Constraint) -> Option<Option<Fault>>
        requires clock { PinExists (length c.now.nets) asked.clock }
        requires input { PinExists (length c.now.nets) asked.input }
        requires fit { FitWaves c.now waves.now }
        ensures { let ws = waves_of waves.now in
            IfSome result (λ found. found ≡ fault_of_checker asked.kind (period c.now.header)
            asked.instance (wave_shown c.now ws asked.clock) (wave_shown c.now ws asked.input)
            asked.limits) }
    {
        let Some(kept) = &self.kept else {
            return None;
        };
        if !kept.is_again(c, waves, asked) {
            return None;
        }
        match kept.found {
            None => Some(None),
            Some(fault) => Some(Some(for_instance(fault, asked.instance))),
        }
    }

    /// Keeps a checker, and its fault.
    #[tactic(auto, using(crate::proofs::Again::kept_is))]
    pub fn keep(
        &mut self,
        alloc: Global,
        c: &Circuit,
        waves: &Waves<W>,
        asked: Constraint,
        found: Option<Fault>,
    ) -> Result<(), NoMemory>
        requires clock { PinExists (length c.now.nets) asked.clock }
        requires input { PinExists (length c.now.nets) asked.input }
        requires fit { FitWaves c.now waves.now }
        requires found { let ws = waves_of waves.now in
            found ≡ fault_of_checker asked.kind (period c.now.header) asked.instance
            (wave_shown c.now ws asked.clock) (wave_shown c.now ws asked.input) asked.limits }
    {
        let Some(clock) = Shown::of(alloc, c, waves, asked.clock)? else {
            return Ok(());
        };
        let Some(input) = Shown::of(alloc, c, waves, asked.input)? else {
            return Ok(());
        };
        self.kept = Some(Checked {
            asked,
            clock,
            input,
            found,
        });
        Ok(())
    }
}
