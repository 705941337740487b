//! Laws of decisions. The function does nothing: what it states is its contract.

ghost use Rattle.fault_decider.specs.Laws.{SettledIsUnbroken};

/// A drawing whose faults are all refuted is as good as one without faults, from the latest tick on
/// that its report prints.
pub fn settled_is_unbroken()
    ensures { SettledIsUnbroken }
{}
