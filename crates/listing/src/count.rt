//! How many bits a circuit has of each sort.

ghost use Rattle.std.specs.Prelude.{◌≡◌, ◌<◌, length, slice_get};
ghost use Rattle.flat_circuit.specs.declared.instance.Instance.{Instance};
ghost use Rattle.element_kinds.specs.Kinds.{has_output};
ghost use Rattle.flat_circuit.specs.Instances.{checkers, outputs};

use flat_circuit::Circuit;

/// The bits of nets, of instances with an output, and of checkers.
#[derive(Clone, Copy, Debug)]
pub struct Counts {
    pub nets: u32,
    pub outputs: u32,
    pub checkers: u32,
}

/// The bits of a circuit.
pub fn counts_of(c: &Circuit) -> Counts
    ensures nets { result.nets ≡ length c.now.nets }
    ensures outputs { result.outputs ≡ outputs c.now.instances }
    ensures checkers { result.checkers ≡ checkers c.now.instances }
{
    let outputs = output_count(c);
    Counts {
        nets: c.net_count(),
        outputs,
        checkers: c.instance_count() - outputs,
    }
}

/// Whether an instance has an output.
fn has_output(c: &Circuit, instance: u32) -> bool
    requires { instance < length c.now.instances }
    ensures { (j : Instance) → slice_get c.now.instances instance ≡ Some j →
        result ≡ has_output j.kind }
{
    c.instance(instance).unwrap().kind.has_output()
}

/// How many instances have an output.
fn output_count(c: &Circuit) -> u32
    ensures { result ≡ outputs c.now.instances }
{
    let mut count = 0;
    for k in 0..c.instance_count() {
        count += u32::from(has_output(c, k));
    }
    count
}
