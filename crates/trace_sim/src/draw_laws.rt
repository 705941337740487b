//! Laws of the runs that seeds draw. The functions do nothing: what each states is its contract.

ghost use Rattle.trace_sim.specs.DrawLaws.{CasesHold, InputsMeet, OneDrawn};

/// Each net that nothing drives keeps its assertion, if the case sets no asserted clock.
pub fn inputs_meet()
    ensures { InputsMeet }
{}

/// Each net of the case is constant, at its value.
pub fn cases_hold()
    ensures { CasesHold }
{}

/// A seed draws one choice in a case.
pub fn seeds_draw_one_choice()
    ensures { OneDrawn }
{}
