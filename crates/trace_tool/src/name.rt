//! The names of nets at their places in name order, and the parts of a name.

ghost use Rattle.std.specs.Prelude.{◌≡◌, ◌==◌, position};
ghost use Rattle.flat_circuit.specs.Circuit.{net_names};
ghost use Rattle.flat_circuit.specs.Name.{name_at};
ghost use Rattle.trace_tool.specs.Name.{base_of, is_global, name_of, parts_of};

use flat_circuit::Circuit;

/// The text of the name of a net.
fn text_of(c: &Circuit, net: u32) -> &[u8]
    ensures { result.now ≡ (name_at (net_names c.now.nets) net).text }
{
    match c.net(net) {
        None => &[],
        Some(net) => net.name.as_slice(),
    }
}

/// The bit of a net.
fn bit_of(c: &Circuit, net: u32) -> u16
    ensures { result ≡ (name_at (net_names c.now.nets) net).bit }
{
    match c.net(net) {
        None => 0,
        Some(net) => net.bit,
    }
}

/// The whole text of the name at a place; past the last place, none.
pub fn text_at(c: &Circuit, place: u32) -> &[u8]
    ensures { result.now ≡ (name_of c.now place).text }
{
    match c.by_name(place) {
        None => &[],
        Some(net) => text_of(c, net),
    }
}

/// The bit of the name at a place; past the last place, 0.
pub fn bit_at(c: &Circuit, place: u32) -> u16
    ensures { result ≡ (name_of c.now place).bit }
{
    match c.by_name(place) {
        None => 0,
        Some(net) => bit_of(c, net),
    }
}

/// Whether this is the name of a global.
pub fn is_global(text: &[u8]) -> bool
    ensures { result ≡ is_global text.now }
{
    match text {
        [first, ..] => *first == b'/',
        [] => false,
    }
}

/// Where the label of the first scope ends, if there is one.
pub fn first_slash(text: &[u8]) -> Option<usize>
    ensures { result ≡ position (λ b. b == 47) text.now }
{
    text.iter().position(|b| *b == b'/')
}

/// What follows the last slash.
fn after_slashes(text: &[u8]) -> &[u8]
    ensures { result.now ≡ (parts_of text.now).base }
{
    match first_slash(text) {
        None => text,
        Some(at) => after_slashes(&text[at + 1..]),
    }
}

/// The base of a name.
pub fn base_of(text: &[u8]) -> &[u8]
    ensures { result.now ≡ base_of text.now }
{
    if is_global(text) {
        text
    } else {
        after_slashes(text)
    }
}
