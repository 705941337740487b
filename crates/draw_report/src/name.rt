//! The names of nets at their places in name order.

ghost use Rattle.std.specs.Prelude.{◌≡◌};
ghost use Rattle.flat_circuit.specs.Circuit.{net_names};
ghost use Rattle.flat_circuit.specs.Name.{name_at};
ghost use Rattle.draw_report.specs.Row.{name_of};

use flat_circuit::Circuit;

/// The text of the name of a net.
fn text_of(c: &Circuit, net: u32) -> &[u8]
    ensures { result.now ≡ (name_at (net_names c.now.nets) net).text }
{
    match c.net(net) {
        None => &[],
        Some(net) => net.name.as_slice(),
    }
}

/// The bit of a net.
fn bit_of(c: &Circuit, net: u32) -> u16
    ensures { result ≡ (name_at (net_names c.now.nets) net).bit }
{
    match c.net(net) {
        None => 0,
        Some(net) => net.bit,
    }
}

/// The whole text of the name at a place.
pub fn text_at(c: &Circuit, place: u32) -> &[u8]
    ensures { result.now ≡ (name_of c.now place).text }
{
    text_of(c, c.net_at(place))
}

/// The bit of the name at a place.
pub fn bit_at(c: &Circuit, place: u32) -> u16
    ensures { result ≡ (name_of c.now place).bit }
{
    bit_of(c, c.net_at(place))
}
