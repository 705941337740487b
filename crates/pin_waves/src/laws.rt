//! What holds of nets that keep their assertions, each law as the contract of a function that does
//! nothing.

ghost use Rattle.pin_waves.specs.Laws.{FrontKeeps, IdealKeepsClock, IdealKeepsPrecision, NextPeriodKeeps, RestKeeps};

/// Fewer ticks of a net that keeps its assertion keep it.
pub fn front_keeps()
    ensures { FrontKeeps }
{}

/// What follows a whole period of it keeps it.
pub fn next_period_keeps()
    ensures { NextPeriodKeeps }
{}

/// A net without an assertion keeps that from any tick on.
pub fn rest_keeps()
    ensures { RestKeeps }
{}

/// The ideal clock keeps what a `.P` asserts of it.
pub fn ideal_keeps_precision()
    ensures { IdealKeepsPrecision }
{}

/// The ideal clock keeps what a `.C` asserts of it, if no two regions of its edges share a slot.
pub fn ideal_keeps_clock()
    ensures { IdealKeepsClock }
{}
