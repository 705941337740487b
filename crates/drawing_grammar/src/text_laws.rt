//! Laws of texts and their drawings, over bytes. The functions do nothing: what each states is its
//! contract.

ghost use Rattle.drawing_grammar.specs.TextLaws.{DrawnAtBytes, DrawnOrRefused, NotBoth, OneDrawing, OneRefusal, RefusedAtBytes, ShallowWhereDrawn};

/// Each text draws a drawing, or it is refused.
pub fn drawn_or_refused()
    ensures { DrawnOrRefused }
{}

/// A text draws one drawing alone.
pub fn one_drawing()
    ensures { OneDrawing }
{}

/// A text is refused for one reason, at one place.
pub fn one_refusal()
    ensures { OneRefusal }
{}

/// A text that is refused draws nothing.
pub fn not_both()
    ensures { NotBoth }
{}

/// A text is refused at the place of one of its bytes, or of its end.
pub fn refused_at_bytes()
    ensures { RefusedAtBytes }
{}

/// Each place that stands in the drawing of a text is that of one of the text's bytes, or of its
/// end.
pub fn drawn_at_bytes()
    ensures { DrawnAtBytes }
{}

/// A drawing whose canonical text draws one nests no deeper than a text may, so the condition of
/// `canonical_draws` is exactly the right one.
pub fn shallow_where_drawn()
    ensures { ShallowWhereDrawn }
{}
