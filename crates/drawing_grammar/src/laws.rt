//! Laws of drawings and their texts. The functions do nothing: what each states is its contract.

ghost use Rattle.drawing_grammar.specs.CanonicalDraws.{CanonicalDraws};
ghost use Rattle.drawing_grammar.specs.Laws.{DrawnAtTokens, DrawnIsWellFormed, DrawnOrRefused, NamesAreSpelled, NotBoth, OneDrawing, OneRefusal, WrongAtTokens};
ghost use Rattle.drawing_grammar.specs.Reordered.{ReorderedDraws};

/// Tokens draw one drawing alone.
pub fn one_drawing()
    ensures { OneDrawing }
{}

/// Tokens that draw a drawing are not refused.
pub fn not_both()
    ensures { NotBoth }
{}

/// Tokens are refused for one reason, at one place.
pub fn one_refusal()
    ensures { OneRefusal }
{}

/// The tokens of a text draw a drawing, or they are refused.
pub fn drawn_or_refused()
    ensures { DrawnOrRefused }
{}

/// The names of a drawing are those that its text spells between quotes.
pub fn names_are_spelled()
    ensures { NamesAreSpelled }
{}

/// What some text draws, its canonical text draws too, places aside, if that text does not nest
/// too deep: at most 64 parentheses and minus signs are open at once in an expression.
pub fn canonical_draws()
    ensures { CanonicalDraws }
{}

/// If some text draws a drawing, one of version 2 that differs from it in the order of input
/// connections alone is drawn by its canonical text, places aside, if that does not nest too
/// deep.
pub fn reordered_draws()
    ensures { ReorderedDraws }
{}

/// A drawing that a text draws is well formed.
pub fn drawn_is_well_formed()
    ensures { DrawnIsWellFormed }
{}

/// Tokens are refused at the place of one of them.
pub fn wrong_at_tokens()
    ensures { WrongAtTokens }
{}

/// Each place that stands in a drawing is that of one of the tokens that draw it.
pub fn drawn_at_tokens()
    ensures { DrawnAtTokens }
{}
