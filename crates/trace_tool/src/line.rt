//! The lines of a trace of a circuit, in their order.

ghost use Rattle.std.specs.Prelude.{◌≡◌, ◌+◌, length, slice_get};
ghost use Rattle.trace_tool.specs.Trace.{line_order};

use flat_circuit::Circuit;

/// What a line of a trace says.
#[derive(Clone, Copy, PartialEq, Eq, Debug)]
pub enum Line {
    /// How many ticks the trace has.
    Head,
    /// The delays at the instance of this number.
    Delays(u32),
    /// The bits of the net of this number.
    Bits(u32),
    /// That the trace ends.
    End,
}

/// How many lines a trace of the circuit has.
pub(crate) fn line_count(c: &Circuit) -> u32
    ensures { result ≡ length (line_order c.now) }
{
    c.known();
    c.instance_count() + c.net_count() + 2
}

/// What the line at a place, from 0, says, or `None` exactly past the last.
pub(crate) fn line_at(c: &Circuit, place: u32) -> Option<Line>
    ensures { result ≡ slice_get (line_order c.now) place }
{
    c.known();
    if place == 0 {
        return Some(Line::Head);
    }
    let instance = place - 1;
    if instance < c.instance_count() {
        return Some(Line::Delays(instance));
    }
    let at = instance - c.instance_count();
    match c.by_name(at) {
        Some(net) => Some(Line::Bits(net)),
        None => {
            if at == c.net_count() {
                Some(Line::End)
            } else {
                None
            }
        }
    }
}
