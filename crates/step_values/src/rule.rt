//! The rules of storage: the steps that an element allows, from its output at the tick before to
//! its output at a tick.

ghost use Rattle.std.specs.Prelude.{◌≡◌};
ghost use Rattle.step_values.specs.Image.{any_clock, latch_rs_rule, latch_rule, reg_rs_rule, reg_rule, set_reset};
ghost use Rattle.step_values.specs.StepSet.{IsSet};

use crate::step_set::{Step, StepSet};

/// The steps that a rule allows.
macro_rules! steps_of {
    ($rule:ident($($bits:expr),*)) => {
        StepSet::of(
            $rule($($bits),*, false, false),
            $rule($($bits),*, false, true),
            $rule($($bits),*, true, false),
            $rule($($bits),*, true, true),
        )
    };
}

/// What a register allows if its clock makes this step. Its input is left open.
fn reg_allows(clock: Step, before: bool, after: bool) -> bool
    ensures { result ≡ reg_rule clock.before clock.after before after }
{
    (!clock.before && clock.after) || before == after
}

/// What a latch allows.
fn latch_allows(enable: bool, input: bool, before: bool, after: bool) -> bool
    ensures { result ≡ latch_rule enable input before after }
{
    if enable {
        after == input
    } else {
        after == before
    }
}

/// What set and reset make of what the rest of an element allows.
fn set_reset_allows(set: bool, reset: bool, rest: bool, output: bool) -> bool
    ensures { result ≡ set_reset set reset rest output }
{
    match (set, reset) {
        (true, false) => output,
        (false, true) => !output,
        (true, true) => true,
        (false, false) => rest,
    }
}

/// What a register with set and reset allows.
fn reg_rs_allows(clock: Step, set: bool, reset: bool, before: bool, after: bool) -> bool
    ensures { result ≡ reg_rs_rule clock.before clock.after set reset before after }
{
    set_reset_allows(set, reset, reg_allows(clock, before, after), after)
}

/// What a latch with set and reset allows.
fn latch_rs_allows(
    enable: bool,
    input: bool,
    set: bool,
    reset: bool,
    before: bool,
    after: bool,
) -> bool
    ensures { result ≡ latch_rs_rule enable input set reset before after }
{
    let rest = latch_allows(enable, input, before, after);
    set_reset_allows(set, reset, rest, after)
}

/// The steps of a latch.
pub fn latch_steps(enable: bool, input: bool) -> StepSet
    ensures { IsSet result (latch_rule enable input) }
{
    steps_of!(latch_allows(enable, input))
}

/// The steps of a register with set and reset.
pub fn reg_rs_steps(clock: Step, set: bool, reset: bool) -> StepSet
    ensures { IsSet result (reg_rs_rule clock.before clock.after set reset) }
{
    steps_of!(reg_rs_allows(clock, set, reset))
}

/// The steps of a latch with set and reset.
pub fn latch_rs_steps(enable: bool, input: bool, set: bool, reset: bool) -> StepSet
    ensures { IsSet result (latch_rs_rule enable input set reset) }
{
    steps_of!(latch_rs_allows(enable, input, set, reset))
}

/// The same at a tick at which the clock is this bit, whatever it was before.
pub fn earlier_reg_rs_steps(clock: bool, set: bool, reset: bool) -> StepSet
    ensures { IsSet result (any_clock (λ earlier. reg_rs_rule earlier clock set reset)) }
{
    let from_low = reg_rs_steps(
        Step {
            before: false,
            after: clock,
        },
        set,
        reset,
    );
    let from_high = reg_rs_steps(
        Step {
            before: true,
            after: clock,
        },
        set,
        reset,
    );
    from_low.union(from_high)
}
