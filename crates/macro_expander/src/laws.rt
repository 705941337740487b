//! Laws of how drawings are refused in expansion. The functions do nothing: what each states is its
//! contract.

ghost use Rattle.macro_expander.specs.Laws.{CasesStopAtPlaces, StopsAtPlaces};

/// If expansion is refused, or a rule of circuits is broken, something of the drawing stands.
pub fn stops_at_places()
    ensures { StopsAtPlaces }
{}

/// If the cases of a drawing are refused, something of it stands.
pub fn cases_stop_at_places()
    ensures { CasesStopAtPlaces }
{}
