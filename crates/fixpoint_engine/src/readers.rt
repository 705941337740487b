//! Which instances listen to a net, and which nets they drive.

ghost use Rattle.std.specs.Prelude.{◌≡◌, ◌<◌, length};
ghost use Rattle.flat_circuit.specs.Instances.{out_at, readers_of};
ghost use Rattle.fixpoint_engine.specs.Worklist.{output_net};

use flat_circuit::{Circuit, Target};

/// The instances with an output that listen to a net.
pub fn readers_of(c: &Circuit, net: u32) -> &[u32]
    requires { net < length c.now.nets }
    ensures { result.now ≡ readers_of c.now.instances net }
{
    match c.readers(net) {
        Some(readers) => readers,
        None => unreachable!(),
    }
}

/// The net that an instance drives; `None` if it has no output, or there is no such instance.
pub fn output_of(c: &Circuit, instance: u32) -> Option<u32>
    ensures { result ≡ output_net (out_at c.now.instances instance) }
{
    match c.instance(instance)?.out? {
        Target::Net(net) => Some(net),
        Target::Constant(_) => None,
    }
}
