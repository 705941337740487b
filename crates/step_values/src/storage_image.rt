//! What a storage element makes of its arguments: the steps of its output over all choices of one
//! permitted step for each argument, which are made argument by argument. The output before a step
//! is any that the rule allowed at the tick before.

ghost use Rattle.std.specs.Prelude.{◌≡◌};
ghost use Rattle.step_values.specs.Image.{image1, image2, image3, image4, latch_image, latch_of, latch_rs_image, latch_rs_of, latch_rs_step, latch_step, reg_image, reg_of, reg_rs_image, reg_rs_of, reg_rs_step};
ghost use Rattle.step_values.specs.StepSet.{IsSet, only_if};

use crate::choices::each_step;
use crate::covering::cover;
use crate::rule::{earlier_reg_rs_steps, latch_rs_steps, latch_steps, reg_rs_steps};
use crate::step_set::{Step, StepSet};
use crate::value::Value;

/// The value of a register's output by its clock. Its input is left open.
#[tactic(auto, unfolding(crate::specs::Image::reg_of, crate::specs::Image::reg_image, crate::specs::Image::image1))]
pub fn reg(v: Value) -> Value
    ensures { result ≡ reg_of v }
{
    match v {
        Value::Zero | Value::One | Value::S | Value::F => Value::S,
        Value::R | Value::C => Value::C,
        Value::U => Value::U,
    }
}

/// The value of a latch's output by its enable and its input.
#[tactic(auto, unfolding(crate::specs::Image::latch_of))]
pub fn latch_value(enable: Value, input: Value) -> Value
    ensures { result ≡ latch_of enable input }
{
    cover(
        latch_image(enable, input),
        enable.is_unknown() || input.is_unknown(),
    )
}

/// The steps of a latch.
#[tactic(auto, unfolding(crate::specs::Image::latch_image, crate::specs::Image::image2))]
fn latch_image(enable: Value, input: Value) -> StepSet
    ensures { IsSet result (latch_image enable input) }
{
    each_step!(enable, latch_with(input))
}

/// Those of one step of the enable.
#[tactic(auto, unfolding(crate::specs::Image::image1))]
fn latch_with(wanted: bool, enable: Step, input: Value) -> StepSet
    ensures { IsSet result (only_if wanted (image1 (latch_step enable.before enable.after) input)) }
{
    if wanted {
        each_step!(input, latch_step(enable))
    } else {
        StepSet::none()
    }
}

/// Those of one step of each.
fn latch_step(wanted: bool, input: Step, enable: Step) -> StepSet
    ensures { IsSet result
        (only_if wanted (latch_step enable.before enable.after input.before input.after)) }
{
    let earlier = latch_steps(enable.before, input.before);
    earlier
        .followed_by(latch_steps(enable.after, input.after))
        .only_if(wanted)
}

/// The value of the output of a register with set and reset. Its input is left open.
#[tactic(auto, unfolding(crate::specs::Image::reg_rs_of))]
pub fn reg_rs_value(clock: Value, set: Value, reset: Value) -> Value
    ensures { result ≡ reg_rs_of clock set reset }
{
    let unknown = clock.is_unknown() || set.is_unknown() || reset.is_unknown();
    cover(reg_rs_image(clock, set, reset), unknown)
}

/// The steps of a register with set and reset.
#[tactic(auto, unfolding(crate::specs::Image::reg_rs_image, crate::specs::Image::image3))]
fn reg_rs_image(clock: Value, set: Value, reset: Value) -> StepSet
    ensures { IsSet result (reg_rs_image clock set reset) }
{
    each_step!(clock, reg_rs_with_clock(set, reset))
}

/// Those of one step of the clock.
#[tactic(auto, unfolding(crate::specs::Image::image2))]
fn reg_rs_with_clock(wanted: bool, clock: Step, set: Value, reset: Value) -> StepSet
    ensures { IsSet result
        (only_if wanted (image2 (reg_rs_step clock.before clock.after) set reset)) }
{
    if wanted {
        each_step!(set, reg_rs_with_set(clock, reset))
    } else {
        StepSet::none()
    }
}

/// Those of one step of the clock and of set.
#[tactic(auto, unfolding(crate::specs::Image::image1))]
fn reg_rs_with_set(wanted: bool, set: Step, clock: Step, reset: Value) -> StepSet
    ensures { IsSet result
        (only_if wanted
        (image1 (reg_rs_step clock.before clock.after set.before set.after) reset)) }
{
    if wanted {
        each_step!(reset, reg_rs_step(clock, set))
    } else {
        StepSet::none()
    }
}

/// Those of one step of each.
fn reg_rs_step(wanted: bool, reset: Step, clock: Step, set: Step) -> StepSet
    ensures { IsSet result
        (only_if wanted
        (reg_rs_step clock.before clock.after set.before set.after reset.before reset.after)) }
{
    let earlier = earlier_reg_rs_steps(clock.before, set.before, reset.before);
    earlier
        .followed_by(reg_rs_steps(clock, set.after, reset.after))
        .only_if(wanted)
}

/// The value of the output of a latch with set and reset.
#[tactic(auto, unfolding(crate::specs::Image::latch_rs_of))]
pub fn latch_rs_value(enable: Value, input: Value, set: Value, reset: Value) -> Value
    ensures { result ≡ latch_rs_of enable input set reset }
{
    let data_unknown = enable.is_unknown() || input.is_unknown();
    let unknown = data_unknown || set.is_unknown() || reset.is_unknown();
    cover(latch_rs_image(enable, input, set, reset), unknown)
}

/// The steps of a latch with set and reset.
#[tactic(auto, unfolding(crate::specs::Image::latch_rs_image, crate::specs::Image::image4))]
fn latch_rs_image(enable: Value, input: Value, set: Value, reset: Value) -> StepSet
    ensures { IsSet result (latch_rs_image enable input set reset) }
{
    each_step!(enable, latch_rs_with_enable(input, set, reset))
}

/// Those of one step of the enable.
#[tactic(auto, unfolding(crate::specs::Image::image3))]
fn latch_rs_with_enable(
    wanted: bool,
    enable: Step,
    input: Value,
    set: Value,
    reset: Value,
) -> StepSet
    ensures { IsSet result
        (only_if wanted (image3 (latch_rs_step enable.before enable.after) input set reset)) }
{
    if wanted {
        each_step!(input, latch_rs_with_input(enable, set, reset))
    } else {
        StepSet::none()
    }
}

/// Those of one step of the enable and of the input.
#[tactic(auto, unfolding(crate::specs::Image::image2))]
fn latch_rs_with_input(wanted: bool, input: Step, enable: Step, set: Value, reset: Value) -> StepSet
    ensures { IsSet result (only_if wanted (image2
        (latch_rs_step enable.before enable.after input.before input.after) set reset)) }
{
    if wanted {
        each_step!(set, latch_rs_with_set(enable, input, reset))
    } else {
        StepSet::none()
    }
}

/// Those of one step of the enable, of the input and of set.
#[tactic(auto, unfolding(crate::specs::Image::image1))]
fn latch_rs_with_set(wanted: bool, set: Step, enable: Step, input: Step, reset: Value) -> StepSet
    ensures { IsSet result (only_if wanted (image1
        (latch_rs_step enable.before enable.after input.before input.after set.before set.after)
        reset)) }
{
    if wanted {
        each_step!(reset, latch_rs_step(enable, input, set))
    } else {
        StepSet::none()
    }
}

/// Those of one step of each.
fn latch_rs_step(wanted: bool, reset: Step, enable: Step, input: Step, set: Step) -> StepSet
    ensures { IsSet result
        (only_if wanted (latch_rs_step enable.before enable.after
        input.before input.after set.before set.after reset.before reset.after)) }
{
    let earlier = latch_rs_steps(enable.before, input.before, set.before, reset.before);
    let now = latch_rs_steps(enable.after, input.after, set.after, reset.after);
    earlier.followed_by(now).only_if(wanted)
}
