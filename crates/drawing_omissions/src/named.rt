//! The nets that cases name.

ghost use Rattle.std.specs.Prelude.{◌≡◌, IfOk, OnOk};
ghost use Rattle.drawing_omissions.specs.Open.{and_net, and_nets, named as spec_named};

use flat_circuit::{Case, CaseValue};
use indexmap::IndexSet;
use scald_base::NoMemory;
use std::alloc::Global;

/// Adds the net of a bit.
fn add_net(nets: &mut IndexSet<u32>, value: CaseValue) -> Result<(), NoMemory>
    ensures { OnOk result (nets.new.keys ≡ and_net nets.old.keys value) }
{
    nets.insert(value.net)?;
    Ok(())
}

/// Adds the nets that a case names.
fn add_nets(nets: &mut IndexSet<u32>, values: &[CaseValue]) -> Result<(), NoMemory>
    ensures { OnOk result (nets.new.keys ≡ and_nets nets.old.keys values.now) }
{
    for value in values {
        add_net(nets, *value)?;
    }
    Ok(())
}

/// The nets that cases name, each once.
pub(crate) fn named(alloc: Global, cases: &[Case]) -> Result<IndexSet<u32>, NoMemory>
    ensures { IfOk result (λ nets. nets.keys ≡ spec_named cases.now) }
{
    let mut nets = IndexSet::new(alloc);
    for case in cases {
        add_nets(&mut nets, case.as_slice())?;
    }
    Ok(nets)
}
