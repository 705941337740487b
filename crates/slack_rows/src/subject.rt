//! The slacks of a checker, a marked gate or an asserted net in a case.

ghost use Rattle.std.specs.Prelude.{◌≡◌, ℕ, IfOk, OnOk, Some, false, true, length, slice_get};
ghost use Rattle.scald_base.specs.Time.{period};
ghost use Rattle.element_kinds.specs.Kinds.{check_of, may_be_marked};
ghost use Rattle.flat_circuit.specs.Instances.{InstanceFits};
ghost use Rattle.fixpoint_engine.specs.Waves.{marked_pin as marked_in, waves_of};
ghost use Rattle.critical_paths.specs.declared.direction.Direction.TheVariants.{Change};
ghost use Rattle.critical_paths.specs.Event.{events};
ghost use Rattle.critical_paths.specs.Reached.{KnowsArrivals};
ghost use Rattle.critical_paths.specs.Region.{some_event};
ghost use Rattle.critical_paths.specs.Known.{Knows};
ghost use Rattle.critical_paths.specs.Views.{Sees};
ghost use Rattle.slack_rows.specs.Exact.{AreOfInstance, AreOfKnown, AreOfPins, AreOfSubject, IsOfChecker};
ghost use Rattle.slack_rows.specs.Held.{GoesOn};
ghost use Rattle.slack_rows.specs.Known.{SlacksKnown, TellLimits};
ghost use Rattle.slack_rows.specs.Limit.{by_arrivals, instance_by_arrivals, finding_in, finding_instance, pin_folds};
ghost use Rattle.slack_rows.specs.Rows.{limits_of, limits_of_instance};
ghost use Rattle.slack_rows.specs.Sides.{has_windows};
ghost use Rattle.slack_rows.specs.Views.{checks_edges};

use crate::assertion::net_slacks;
use crate::checker::checker_slacks;
use crate::gate::gate_slacks;
use crate::limits::{is_held, marked_pin};
use crate::parameter::Subject;
use crate::slack::Slacks;
use crate::width::width_slacks;
use critical_paths::{Paths, View};
use element_kinds::Check;
use flat_circuit::Instance;
use scald_base::NoMemory;
use step_values::Value;
use wave_core::CyclicWave;

/// The slacks of an instance.
fn instance_slacks<W: CyclicWave<Item = Value>>(
    view: &View<W>,
    paths: &mut Paths,
    instance: &Instance,
) -> Result<Slacks, NoMemory>
    requires sees { Sees view.now.circuit.now view.now.waves.now view.now.hazards.now }
    requires knows { Knows view.now.circuit.now (waves_of view.now.waves.now) paths.old.nodes
        paths.old.met.entries }
    requires fits { InstanceFits view.now.circuit.now.header
        (length view.now.circuit.now.nets) instance.now }
    ensures paths { OnOk result (GoesOn view.now.circuit.now (waves_of view.now.waves.now)
        paths.old paths.new) }
    ensures finding { let c = view.now.circuit.now in let ws = waves_of view.now.waves.now in
        let j = Some instance.now in IfOk result
        (TellLimits (period c.header) (instance_by_arrivals c ws j)
        (λ word. finding_instance c ws word j) (limits_of_instance j)) }
    ensures gate { let c = view.now.circuit.now in let ws = waves_of view.now.waves.now in
        let j = instance.now in (marked : ℕ) → KnowsArrivals c ws paths.old →
        may_be_marked j.kind ≡ true → marked_in j ≡ Some marked →
        IfOk result (AreOfPins c ws j marked (length j.pins)) }
    ensures checker { let c = view.now.circuit.now in let ws = waves_of view.now.waves.now in
        let j = instance.now in (check : Check) → KnowsArrivals c ws paths.old →
        may_be_marked j.kind ≡ false → check_of j.kind ≡ Some check → checks_edges check ≡ true →
        some_event (period c.header) (events Change (pin_folds c ws j 1)) ≡ true →
        has_windows c ws j check ≡ true → IfOk result (IsOfChecker c ws j check) }
{
    if instance.kind.may_be_marked() {
        return match marked_pin(instance) {
            Some(marked) => gate_slacks(view, paths, instance, marked),
            None => Ok(Slacks::NONE),
        };
    }
    match instance.kind.check() {
        Some(Check::MinPulse) => width_slacks(view, instance),
        Some(Check::SetupHold) => checker_slacks(view, paths, instance, Check::SetupHold),
        Some(Check::RiseFall) => checker_slacks(view, paths, instance, Check::RiseFall),
        None => Ok(Slacks::NONE),
    }
}

/// The slacks of a subject, of each of its limits.
#[tactic(auto, unfolding(crate::specs::Limit::finding_in, crate::specs::Limit::by_arrivals))]
fn slacks_of<W: CyclicWave<Item = Value>>(
    view: &View<W>,
    paths: &mut Paths,
    subject: Subject,
) -> Result<Slacks, NoMemory>
    requires sees { Sees view.now.circuit.now view.now.waves.now view.now.hazards.now }
    requires knows { Knows view.now.circuit.now (waves_of view.now.waves.now) paths.old.nodes
        paths.old.met.entries }
    ensures paths { OnOk result (GoesOn view.now.circuit.now (waves_of view.now.waves.now)
        paths.old paths.new) }
    ensures finding { let c = view.now.circuit.now in let ws = waves_of view.now.waves.now in
        IfOk result (TellLimits (period c.header) (by_arrivals c ws subject)
        (finding_in c ws subject) (limits_of c subject)) }
    ensures are { let c = view.now.circuit.now in let ws = waves_of view.now.waves.now in
        (k : ℕ) (j : Instance) → KnowsArrivals c ws paths.old → subject ≡ Subject.Instance k →
        slice_get c.instances k ≡ Some j → IfOk result (AreOfInstance c ws j) }
{
    match subject {
        Subject::Net(number) => match view.circuit.net(number) {
            Some(net) if is_held(net) => net_slacks(view, paths, number, net),
            _ => Ok(Slacks::NONE),
        },
        Subject::Instance(number) => match view.circuit.instance(number) {
            Some(instance) => instance_slacks(view, paths, instance),
            None => Ok(Slacks::NONE),
        },
    }
}

/// Whether a subject is another one than this.
fn is_other(known: Option<Subject>, subject: Subject) -> bool
    ensures known { result ≡ false → known ≡ Some subject }
    ensures other { result ≡ true → known ≡ Some subject → ⊥ }
{
    match known {
        Some(own) => own != subject,
        None => true,
    }
}

/// The slacks of a subject, if those of one may be known.
pub fn slacks_at<W: CyclicWave<Item = Value>>(
    view: &View<W>,
    paths: &mut Paths,
    known: Option<Subject>,
    slacks: Slacks,
    subject: Subject,
) -> Result<Slacks, NoMemory>
    requires sees { Sees view.now.circuit.now view.now.waves.now view.now.hazards.now }
    requires knows { Knows view.now.circuit.now (waves_of view.now.waves.now) paths.old.nodes
        paths.old.met.entries }
    requires slacks { SlacksKnown view.now.circuit.now (waves_of view.now.waves.now) known slacks }
    ensures paths { OnOk result (GoesOn view.now.circuit.now (waves_of view.now.waves.now)
        paths.old paths.new) }
    ensures finding { IfOk result (λ found. SlacksKnown view.now.circuit.now
        (waves_of view.now.waves.now) (Some subject) found) }
    ensures are { let c = view.now.circuit.now in let ws = waves_of view.now.waves.now in
        KnowsArrivals c ws paths.old → AreOfKnown c ws known slacks →
        IfOk result (AreOfSubject c ws subject) }
    ensures same { known ≡ Some subject → IfOk result (λ found. found ≡ slacks) }
{
    if is_other(known, subject) {
        let found = slacks_of(view, paths, subject)?;
        Ok(found)
    } else {
        Ok(slacks)
    }
}
