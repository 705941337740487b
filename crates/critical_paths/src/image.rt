//! Which steps of an element's output a step of one pin can make.

ghost use Rattle.std.specs.Prelude.{◌≡◌, ◌+◌, ◌<◌, ◌&&◌, ◌||◌, not, false, length, if◌then◌else◌};
ghost use Rattle.step_values.specs.Each.{agree};
ghost use Rattle.step_values.specs.Image.{latch_rule, latch_rs_step, latch_step as latch_of, one_step, reg_rs_step, reg_step as reg_of, selected, set_reset};
ghost use Rattle.step_values.specs.StepSet.{in_set, IsSet, only_if};
ghost use Rattle.critical_paths.specs.Cause.{made1, made2, made3, made4, made_from_left, mux, output_steps};
ghost use Rattle.storage_eval.specs.Storage.{listening};
ghost use Rattle.critical_paths.specs.Image.{rule_of};
ghost use Rattle.critical_paths.specs.Views.{IsCount, choosing, chosen, makes as makes_by};

use crate::direction::Direction;
use flat_circuit::Kind;
use step_values::{Step, StepSet, Value, steps};

/// Whether storage that takes its input in, or does not, allows an output after another. A register
/// may take in either bit.
fn allows(
    is_latch: bool,
    takes: bool,
    input: bool,
    set: bool,
    reset: bool,
    before: bool,
    after: bool,
) -> bool
    ensures { result ≡ set_reset set reset
        (if is_latch then latch_rule takes input before after else (takes || agree before after))
        after }
{
    match (set, reset) {
        (true, false) => after,
        (false, true) => !after,
        (true, true) => true,
        (false, false) if !is_latch => takes || before == after,
        (false, false) if takes => after == input,
        (false, false) => after == before,
    }
}

/// The steps that it allows.
fn stored(is_latch: bool, takes: bool, input: bool, set: bool, reset: bool) -> StepSet
    ensures { IsSet result (λ before after. set_reset set reset
        (if is_latch then latch_rule takes input before after else (takes || agree before after))
        after) }
{
    StepSet::of(
        allows(is_latch, takes, input, set, reset, false, false),
        allows(is_latch, takes, input, set, reset, false, true),
        allows(is_latch, takes, input, set, reset, true, false),
        allows(is_latch, takes, input, set, reset, true, true),
    )
}

/// The steps of a latch by those of its enable, input, set and reset.
fn latch_step(enable: Step, input: Step, set: Step, reset: Step) -> StepSet
    ensures { IsSet result (latch_rs_step enable.before enable.after
        input.before input.after set.before set.after reset.before reset.after) }
{
    let earlier = stored(true, enable.before, input.before, set.before, reset.before);
    let now = stored(true, enable.after, input.after, set.after, reset.after);
    earlier.followed_by(now)
}

/// Whether a clock rises.
fn rises(clock: Step) -> bool
    ensures { result ≡ (not clock.before && clock.after) }
{
    !clock.before && clock.after
}

/// The steps of a register by those of its clock, set and reset. It takes its input in at a rise,
/// and may have done so before.
fn reg_step(clock: Step, set: Step, reset: Step) -> StepSet
    ensures { IsSet result
        (reg_rs_step clock.before clock.after set.before set.after reset.before reset.after) }
{
    let takes = rises(clock);
    let earlier = stored(false, clock.before, false, set.before, reset.before);
    let now = stored(false, takes, false, set.after, reset.after);
    earlier.followed_by(now)
}

/// The input that a select names.
fn chosen_bit(select: bool, first: bool, second: bool) -> bool
    ensures { result ≡ selected select first second }
{
    if select { second } else { first }
}

/// The steps of an element by one step of each pin, if they are wanted. Of kinds that are made
/// otherwise there are none.
#[tactic(auto, unfolding(crate::specs::Image::rule_of))]
fn step_of(wanted: bool, d: Step, kind: Kind, a: Step, b: Step, c: Step) -> StepSet
    ensures { IsSet result (only_if wanted
        (rule_of kind a.before a.after b.before b.after c.before c.after d.before d.after)) }
{
    match kind {
        Kind::And => StepSet::one_if(wanted, a.before && b.before, a.after && b.after),
        Kind::Or => StepSet::one_if(wanted, a.before || b.before, a.after || b.after),
        Kind::Xor => StepSet::one_if(wanted, a.before != b.before, a.after != b.after),
        Kind::Reg | Kind::RegRs => reg_step(a, c, d).only_if(wanted),
        Kind::Latch | Kind::LatchRs => latch_step(a, b, c, d).only_if(wanted),
        Kind::Mux2 | Kind::Mux4 | Kind::Mux8 => {
            StepSet::one_if(
                wanted,
                chosen_bit(a.before, b.before, c.before),
                chosen_bit(a.after, b.after, c.after),
            )
        }
        Kind::Buf | Kind::Chg | Kind::SetupHold | Kind::RiseFall | Kind::MinPulse =>
            StepSet::none(),
    }
}

/// The union of what a function makes of each step: it is told whether the set has the step, the
/// step, and the rest.
macro_rules! each_step {
    ($set:expr, $steps:ident($($rest:expr),*)) => {{
        let low = $steps($set.contains(false, false), Step::LOW, $($rest),*);
        let rise = $steps($set.contains(false, true), Step::RISE, $($rest),*);
        let fall = $steps($set.contains(true, false), Step::FALL, $($rest),*);
        let high = $steps($set.contains(true, true), Step::HIGH, $($rest),*);
        low.union(rise).union(fall.union(high))
    }};
}

/// The same of a set of steps of the last pin.
#[tactic(auto, unfolding(crate::specs::Cause::made1))]
fn of_last(wanted: bool, c: Step, kind: Kind, a: Step, b: Step, d: StepSet) -> StepSet
    ensures { IsSet result (only_if wanted
        (made1 (rule_of kind a.before a.after b.before b.after c.before c.after) (in_set d))) }
{
    if wanted {
        each_step!(d, step_of(kind, a, b, c))
    } else {
        StepSet::none()
    }
}

/// The same of sets for the last two.
#[tactic(auto, unfolding(crate::specs::Cause::made2))]
fn of_two(wanted: bool, b: Step, kind: Kind, a: Step, c: StepSet, d: StepSet) -> StepSet
    ensures { IsSet result (only_if wanted
        (made2 (rule_of kind a.before a.after b.before b.after) (in_set c) (in_set d))) }
{
    if wanted {
        each_step!(c, of_last(kind, a, b, d))
    } else {
        StepSet::none()
    }
}

/// The same of sets for all but the first.
#[tactic(auto, unfolding(crate::specs::Cause::made3))]
fn of_three(wanted: bool, a: Step, kind: Kind, b: StepSet, c: StepSet, d: StepSet) -> StepSet
    ensures { IsSet result (only_if wanted
        (made3 (rule_of kind a.before a.after) (in_set b) (in_set c) (in_set d))) }
{
    if wanted {
        each_step!(b, of_two(kind, a, c, d))
    } else {
        StepSet::none()
    }
}

/// The steps of an element by sets of steps of its pins.
#[tactic(auto, unfolding(crate::specs::Cause::made4))]
fn made(kind: Kind, a: StepSet, b: StepSet, c: StepSet, d: StepSet) -> StepSet
    ensures { IsSet result (made4 (rule_of kind) (in_set a) (in_set b) (in_set c) (in_set d)) }
{
    each_step!(a, of_three(kind, b, c, d))
}

/// A pin that stays at 0.
fn low() -> StepSet
    ensures { IsSet result (one_step false false) }
{
    StepSet::one_if(true, false, false)
}

/// What the pins of an element may do at one tick, of which one makes a step that is chosen.
#[derive(Clone, Copy)]
pub struct Choice<'a> {
    pub values: &'a [Value],
    pub pin: usize,
    pub step: Step,
}

impl<'a> Choice<'a> {
    /// The steps of a pin.
    fn steps(self, place: usize) -> StepSet
        requires { place < length self.values.now }
        ensures { IsSet result (chosen self.entry.values.now self.entry.pin self.entry.step.before
            self.entry.step.after place) }
    {
        if place == self.pin {
            StepSet::one_if(true, self.step.before, self.step.after)
        } else {
            steps(self.values[place])
        }
    }

    /// What a gate makes of all pins, two at a time, from the left.
    fn met(self, kind: Kind) -> StepSet
        requires { 0 < length self.values.now }
        ensures { IsSet result (made_from_left
            (λ a a' b b'. rule_of kind a a' b b' false false false false)
            (choosing self.entry.values.now self.entry.pin self.entry.step.before
            self.entry.step.after)) }
    {
        let mut met = self.steps(0);
        for place in 1..self.values.len() {
            met = made(kind, met, self.steps(place), low(), low());
        }
        met
    }

    /// What a select makes of the inputs from one on: of the first two.
    fn of_two(self, select: usize, input: usize) -> StepSet
        requires select { select < length self.values.now }
        requires inputs { input + 1 < length self.values.now }
        ensures { let s = chosen self.entry.values.now self.entry.pin self.entry.step.before
            self.entry.step.after in
            IsSet result (mux (s select) (s input) (s (input + 1))) }
    {
        let (first, second) = (self.steps(input), self.steps(input + 1));
        made(Kind::Mux2, self.steps(select), first, second, low())
    }

    /// What two selects make of them: of the first four.
    fn of_four(self, select: usize, input: usize) -> StepSet
        requires selects { select + 1 < length self.values.now }
        requires inputs { input + 3 < length self.values.now }
        ensures { let s = chosen self.entry.values.now self.entry.pin self.entry.step.before
            self.entry.step.after in
            IsSet result (mux (s select) (mux (s (select + 1)) (s input) (s (input + 1)))
            (mux (s (select + 1)) (s (input + 2)) (s (input + 3)))) }
    {
        let first = self.of_two(select + 1, input);
        let second = self.of_two(select + 1, input + 2);
        made(Kind::Mux2, self.steps(select), first, second, low())
    }

    /// What three selects make of eight inputs.
    fn of_eight(self) -> StepSet
        requires { 10 < length self.values.now }
        ensures { let s = chosen self.entry.values.now self.entry.pin self.entry.step.before
            self.entry.step.after in
            IsSet result (mux (s 0) (mux (s 1) (mux (s 2) (s 3) (s 4)) (mux (s 2) (s 5) (s 6)))
            (mux (s 1) (mux (s 2) (s 7) (s 8)) (mux (s 2) (s 9) (s 10)))) }
    {
        let (first, second) = (self.of_four(1, 3), self.of_four(1, 7));
        made(Kind::Mux2, self.steps(0), first, second, low())
    }

    /// What a register makes of its clock.
    fn reg(self) -> StepSet
        requires { 0 < length self.values.now }
        ensures { let s = chosen self.entry.values.now self.entry.pin self.entry.step.before
            self.entry.step.after in
            IsSet result (made1 reg_of (s 0)) }
    {
        let zero = low();
        made(Kind::Reg, self.steps(0), zero, zero, zero)
    }

    /// What a register makes of its clock, set and reset.
    fn reg_rs(self) -> StepSet
        requires { 3 < length self.values.now }
        ensures { let s = chosen self.entry.values.now self.entry.pin self.entry.step.before
            self.entry.step.after in
            IsSet result (made3 reg_rs_step (s 0) (s 2) (s 3)) }
    {
        let (set, reset) = (self.steps(2), self.steps(3));
        made(Kind::RegRs, self.steps(0), low(), set, reset)
    }

    /// What a latch makes of its enable and input.
    fn latch(self) -> StepSet
        requires { 1 < length self.values.now }
        ensures { let s = chosen self.entry.values.now self.entry.pin self.entry.step.before
            self.entry.step.after in
            IsSet result (made2 latch_of (s 0) (s 1)) }
    {
        let (enable, input, zero) = (self.steps(0), self.steps(1), low());
        made(Kind::Latch, enable, input, zero, zero)
    }

    /// What a latch makes of its enable, input, set and reset.
    fn latch_rs(self) -> StepSet
        requires { 3 < length self.values.now }
        ensures { let s = chosen self.entry.values.now self.entry.pin self.entry.step.before
            self.entry.step.after in
            IsSet result (made4 latch_rs_step (s 0) (s 1) (s 2) (s 3)) }
    {
        let (enable, input) = (self.steps(0), self.steps(1));
        let (set, reset) = (self.steps(2), self.steps(3));
        made(Kind::LatchRs, enable, input, set, reset)
    }
}

/// What an element makes of all pins.
fn made_of(kind: Kind, choice: Choice) -> StepSet
    requires { IsCount kind (length choice.values.now) }
    ensures { IsSet result (output_steps kind (listening kind
        (choosing choice.entry.values.now choice.entry.pin choice.entry.step.before
        choice.entry.step.after))) }
{
    match kind {
        Kind::Buf => choice.steps(0),
        Kind::And => choice.met(Kind::And),
        Kind::Or => choice.met(Kind::Or),
        Kind::Xor => choice.met(Kind::Xor),
        Kind::Mux2 => choice.of_two(0, 1),
        Kind::Mux4 => choice.of_four(0, 2),
        Kind::Mux8 => choice.of_eight(),
        Kind::Reg => choice.reg(),
        Kind::RegRs => choice.reg_rs(),
        Kind::Latch => choice.latch(),
        Kind::LatchRs => choice.latch_rs(),
        Kind::Chg | Kind::SetupHold | Kind::RiseFall | Kind::MinPulse => StepSet::none(),
    }
}

/// Whether the chosen step of a pin makes one of these steps of the output, before its complement,
/// with some choice of steps of the other pins. A change function passes every change on.
pub fn makes(kind: Kind, choice: Choice, wanted: Direction) -> bool
    requires { IsCount kind (length choice.values.now) }
    ensures { result ≡ makes_by kind choice.entry.values.now choice.entry.pin
        choice.entry.step.before choice.entry.step.after wanted }
{
    if kind.is_change() {
        return true;
    }
    let made = made_of(kind, choice);
    wanted.is_among(made)
}
