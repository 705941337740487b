//! Laws of rounds over classes. The functions do nothing: what each states is its contract.

ghost use Rattle.fixpoint_engine.specs.Laws.{StableClassesGoTogether};

/// If the nets of a stable class begin with one wave, and are all active or all not, they have
/// one wave in every round, and are due in the same rounds.
pub fn stable_classes_go_together()
    ensures { StableClassesGoTogether }
{}
