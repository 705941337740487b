//! Laws of runs, each as the contract of a function that does nothing.

ghost use Rattle.flat_circuit.specs.Laws.{FrontsAreRuns, LaterPartsAreRuns, RunsGoByInstances, UnnamedBitsAreFree};

/// The first ticks of a run of any circuit are a run.
pub fn fronts_are_runs()
    ensures { FrontsAreRuns }
{}

/// A run of any circuit is one without its first ticks.
pub fn later_parts_are_runs()
    ensures { LaterPartsAreRuns }
{}

/// A run of any circuit is one with another bit if no equation that is asked names that bit.
pub fn unnamed_bits_are_free()
    ensures { UnnamedBitsAreFree }
{}

/// A run of a circuit is one of its instances but the last in which the last one obeys its
/// equation.
pub fn runs_go_by_instances()
    ensures { RunsGoByInstances }
{}
