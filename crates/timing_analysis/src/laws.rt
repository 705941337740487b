//! Laws of settled circuits. The functions do nothing: what each states is its contract.

ghost use Rattle.timing_analysis.specs.Laws.{FaultlessIsUnbroken, SettlesOneWay};

/// A circuit and its cases settle in one way, whatever the limits of rounds are.
pub fn circuits_settle_one_way()
    ensures { SettlesOneWay }
{}

/// If nothing without a fault is broken in a case, nothing is broken in a case without a fault.
pub fn faultless_is_unbroken()
    ensures { FaultlessIsUnbroken }
{}
