//! Laws of traces. The function does nothing: what it states is its contract.

ghost use Rattle.trace_tool.specs.Laws.{LinesSayBits};

/// The lines of a trace say its ticks and every bit, so reading gives back what was written.
pub fn lines_say_bits()
    ensures { LinesSayBits }
{}
