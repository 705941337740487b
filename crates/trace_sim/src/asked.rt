//! Whether an equation is asked at a tick.

ghost use Rattle.std.specs.Prelude.{◌≡◌, ◌<◌, ◌^◌, false, slice_index_or};
ghost use Rattle.element_kinds.specs.declared.form.Form.TheVariants.{Register};
ghost use Rattle.element_kinds.specs.Equation.{named_by, pins_before};
ghost use Rattle.trace_sim.specs.Choice.{chosen};
ghost use Rattle.trace_sim.specs.Making.{are_there, named_in};

use element_kinds::Form;
use scald_base::Delay;
use std::cmp::max;

/// Whether each tick that the equation names at this one is 0 or later.
pub(crate) fn is_asked(
    form: Form,
    bounds: Delay,
    delays: (u16, u16),
    wires: &[u16],
    t: usize,
) -> bool
    ensures { result ≡ are_there (named_in form bounds (chosen delays wires.now)) t }
{
    match form {
        Form::Gate => are_shown(max(delays.0, delays.1) as usize, wires, t),
        Form::Change => 1 <= t && are_shown(bounds.max as usize + 1, wires, t),
        Form::Register(_) => is_register_asked(delays.0, wires, t),
        Form::Latch(_) => 1 <= t && are_shown(delays.0 as usize, wires, t),
        Form::Checker(_) => are_shown(delays.0 as usize, wires, t),
    }
}

fn is_register_asked(delay: u16, wires: &[u16], t: usize) -> bool
    ensures { result
        ≡ are_there (named_by (Register false) (record { min = 0; max = 0 }) delay wires.now) t }
{
    1 <= t && delay as usize + 1 + first(wires) as usize <= t && are_shown(delay as usize, wires, t)
}

fn first(wires: &[u16]) -> u16
    ensures { result ≡ slice_index_or wires.now 0 0 }
{
    match wires.get(0) {
        None => 0,
        Some(wire) => *wire,
    }
}

/// Whether each pin, looked at so many ticks before t, shows a tick of its net.
pub(crate) fn are_shown(back: usize, wires: &[u16], t: usize) -> bool
    requires { back < 2 ^ 32 }
    ensures { result ≡ are_there (pins_before back wires.now) t }
{
    for wire in wires {
        if t < back + *wire as usize {
            return false;
        }
    }
    true
}
