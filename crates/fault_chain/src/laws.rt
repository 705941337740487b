//! Laws of chains. The functions do nothing that is kept: what they state is their contract.

ghost use Rattle.std.specs.List.{All};
ghost use Rattle.scald_base.specs.Time.{IsDelay, IsHeader};
ghost use Rattle.flat_circuit.specs.declared.instance.Instance.{Instance as Element};
ghost use Rattle.flat_circuit.specs.declared.net.Net.{Net as Wired};
ghost use Rattle.fault_chain.specs.Laws.{AreTwoDelays, ChainsAreWhole, HasDelays};

use flat_circuit::Circuit;

/// The chain of every fault of a settled case has a first link, goes on as long as a pin changes,
/// and ends: at a level, at a net of an earlier link, at a net that nothing drives, or at storage
/// whose set and reset may both be 1. It has at most one link more than there are nets.
pub fn chains_are_whole()
    ensures { ChainsAreWhole }
{}

/// The bounds of each wire are those of a delay.
fn wires_are_known(c: &Circuit)
    ensures { All (λ (n : Wired). IsDelay n.wire) c.now.nets }
{
    for i in 0..c.net_count() {
        if let Some(net) = c.net(i) {
            net.wire.known();
        }
    }
}

/// So are those of each instance.
fn delays_are_known(c: &Circuit)
    ensures { All (λ (j : Element). IsDelay j.delay) c.now.instances }
{
    for k in 0..c.instance_count() {
        if let Some(element) = c.instance(k) {
            element.delay.known();
        }
    }
}

/// And those of a rise and of a fall.
fn splits_are_known(c: &Circuit)
    ensures { All (λ (j : Element). AreTwoDelays j.split) c.now.instances }
{
    for k in 0..c.instance_count() {
        if let Some(element) = c.instance(k) {
            if let Some(split) = element.split {
                split.rise.known();
                split.fall.known();
            }
        }
    }
}

/// What the law asks of a circuit beside `Circuit::known` holds of every one.
pub fn circuit_has_delays(c: &Circuit)
    ensures header { IsHeader c.now.header }
    ensures delays { HasDelays c.now }
{
    c.header().known();
    wires_are_known(c);
    delays_are_known(c);
    splits_are_known(c);
}
