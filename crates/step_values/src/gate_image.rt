//! What a multiplexer makes of its arguments: the steps of its output over all choices of one
//! permitted step for each argument, which are made argument by argument.

ghost use Rattle.std.specs.Prelude.{◌≡◌, ◌&&◌};
ghost use Rattle.step_values.specs.Image.{image1, image2, mux2_image, mux2_of, mux2_step};
ghost use Rattle.step_values.specs.StepSet.{IsSet, only_if};

use crate::choices::each_step;
use crate::covering::cover;
use crate::step_set::{Step, StepSet};
use crate::value::Value;

/// The value of the input that a select names: of the second value if the select is 1.
#[tactic(auto, unfolding(crate::specs::Image::mux2_of))]
pub fn mux2_value(select: Value, a: Value, b: Value) -> Value
    ensures { result ≡ mux2_of select a b }
{
    let unknown = select.is_unknown() || a.is_unknown() || b.is_unknown();
    cover(mux2_image(select, a, b), unknown)
}

/// The steps of a multiplexer.
#[tactic(auto, unfolding(crate::specs::Image::mux2_image, crate::specs::Image::image3))]
fn mux2_image(select: Value, a: Value, b: Value) -> StepSet
    ensures { IsSet result (mux2_image select a b) }
{
    each_step!(select, mux2_with_select(a, b))
}

/// Those of one step of the select.
#[tactic(auto, unfolding(crate::specs::Image::image2))]
fn mux2_with_select(wanted: bool, select: Step, a: Value, b: Value) -> StepSet
    ensures { IsSet result (only_if wanted (image2 (mux2_step select.before select.after) a b)) }
{
    if wanted {
        each_step!(a, mux2_with_input(select, b))
    } else {
        StepSet::none()
    }
}

/// Those of one step of the select and of the first input.
#[tactic(auto, unfolding(crate::specs::Image::image1))]
fn mux2_with_input(wanted: bool, a: Step, select: Step, b: Value) -> StepSet
    ensures { IsSet result
        (only_if wanted (image1 (mux2_step select.before select.after a.before a.after) b)) }
{
    if wanted {
        each_step!(b, mux2_step(select, a))
    } else {
        StepSet::none()
    }
}

/// That of one step of each.
fn mux2_step(wanted: bool, b: Step, select: Step, a: Step) -> StepSet
    ensures { IsSet result (λ before after. wanted
        && mux2_step select.before select.after a.before a.after b.before b.after before after) }
{
    let from = if select.before { b.before } else { a.before };
    let to = if select.after { b.after } else { a.after };
    StepSet::one_if(wanted, from, to)
}
