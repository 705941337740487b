//! Driven nets against what their names assert.

ghost use Rattle.std.specs.Prelude.{◌≡◌, ◌<◌, ◌&&◌, not, IfOk, IfSome, length};
ghost use Rattle.step_values.specs.Steps.{has};
ghost use Rattle.scald_base.specs.Time.{period};
ghost use Rattle.scald_base.specs.Fitting.{Fits};
ghost use Rattle.fixpoint_engine.specs.Pins.{read};
ghost use Rattle.point_check.specs.Assertion.{assertion_fault as fault_of_assertion, exceeds as exceeds_wide, first_excess as excess, is_held as held};

use flat_circuit::{Fault, Net};
use pin_waves::wide_wave;
use scald_base::{AssertSpec, Header, NoMemory};
use skew_algebra::Skewed;
use std::alloc::Global;
use step_values::{Step, Value};
use wave_core::CyclicWave;

/// Whether something drives the net, and its name asserts something.
pub fn is_held(net: &Net) -> bool
    ensures { result ≡ held net.now }
{
    net.driver.is_some() && !matches!(net.spec.or(&AssertSpec::None), AssertSpec::None)
}

/// Whether the one value permits this step, and the other does not.
fn permits_beyond(v: Value, wide: Value, step: Step) -> bool
    ensures { result ≡ (has v step.before step.after && not (has wide step.before step.after)) }
{
    v.permits(step) && !wide.permits(step)
}

/// Whether the one value permits a step that the other does not.
fn exceeds(v: Value, wide: Value) -> bool
    ensures { result ≡ exceeds_wide v wide }
{
    permits_beyond(v, wide, Step::LOW)
        || permits_beyond(v, wide, Step::RISE)
        || permits_beyond(v, wide, Step::FALL)
        || permits_beyond(v, wide, Step::HIGH)
}

/// The first slot in which the one wave permits a step that the other does not.
fn first_excess<W: CyclicWave<Item = Value>>(found: &W, wide: &W) -> Option<u16>
    requires { length (W.cells wide.now) ≡ length (W.cells found.now) }
    ensures first { result ≡ excess (length (W.cells found.now)) (read (W.cells found.now))
        (read (W.cells wide.now)) }
    ensures within { IfSome result (λ slot. slot < length (W.cells found.now)) }
{
    let mut slot = 0;
    'changes: while slot < found.period() {
        if exceeds(found.at(slot), wide.at(slot)) {
            return Some(slot);
        }
        slot = found.same_until(slot).min(wide.same_until(slot));
    }
    None
}

/// The fault of a net with this assertion: the first slot in which its wave, however late it comes,
/// permits a step that a net with the assertion never makes.
pub fn assertion_fault<W: CyclicWave<Item = Value>>(
    alloc: Global,
    h: &Header,
    spec: &AssertSpec,
    number: u32,
    wave: &Skewed<W>,
) -> Result<Option<Fault>, NoMemory>
    requires fits { Fits h.now spec.now }
    requires period { length wave.now.cells ≡ period h.now }
    ensures { IfOk result (λ found. found ≡ fault_of_assertion h.now spec.now number wave.now) }
{
    wave.known();
    let wide: W = wide_wave(alloc, spec, h)?;
    let found = wave.folded(alloc)?;
    match first_excess(&found, &wide) {
        None => Ok(None),
        Some(slot) => Ok(Some(Fault::Assertion {
            net: number,
            slot,
            value: found.at(slot).letter(),
        })),
    }
}
