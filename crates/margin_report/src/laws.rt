//! Laws of margins. The functions do nothing: what each states is its contract.

ghost use Rattle.margin_report.specs.Laws.{FittingIsMonotone, MarginsAreTrue};
ghost use Rattle.margin_report.specs.Tried.{TriedAsWritten};

/// A value of a parameter is tried as if it were written: the fault is the one that the checker has
/// in the circuit with this value.
pub fn values_are_tried_as_written()
    ensures { TriedAsWritten }
{}

/// If a value of a parameter does not fit, no greater one does.
pub fn fitting_is_monotone()
    ensures { FittingIsMonotone }
{}

/// A margin is the most by which a parameter may be greater, and with one more the case that it
/// names is the first that has a fault.
pub fn margins_are_true()
    ensures { MarginsAreTrue }
{}
