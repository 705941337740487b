//! Laws of texts and their circuits. The functions do nothing: what each states is its contract.

ghost use Rattle.timing_analysis.specs.CircuitLaws.{NotBoth, OneCircuit, OneRefusal, RefusalsArePlaced};

/// A text draws one circuit alone, with one list of cases.
pub fn text_draws_one_circuit()
    ensures { OneCircuit }
{}

/// A text is refused for one reason, at one place.
pub fn text_has_one_refusal()
    ensures { OneRefusal }
{}

/// A text that is refused draws no circuit.
pub fn refused_text_draws_nothing()
    ensures { NotBoth }
{}

/// A text is refused at the place of one of its bytes, or of its end.
pub fn refusals_are_placed()
    ensures { RefusalsArePlaced }
{}
