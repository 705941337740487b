//! Laws of runs. The functions do nothing: what each states is its contract.

ghost use Rattle.trace_sim.specs.Laws.{ChoicesHaveOneRun, RunsExist};

/// Each circuit has a run for each number of ticks and each choice of delays within their bounds,
/// of inputs and of a start.
pub fn runs_exist()
    ensures { RunsExist }
{}

/// A choice has one run: delays, inputs and free bits fix every bit of it.
pub fn choices_have_one_run()
    ensures { ChoicesHaveOneRun }
{}
