//! How a builder ends: the circuit's rules, and the circuit.

ghost use Rattle.std.specs.Prelude.{◌≡◌, ◌<◌, ◌^◌, List, length, IfOk, MatchResult};
ghost use Rattle.std.specs.List.{All};
ghost use Rattle.flat_circuit.specs.Builder.{Stands, IsRefusal, spec_of as spec_for};
ghost use Rattle.flat_circuit.specs.Instances.{InstanceExists};
ghost use Rattle.flat_circuit.specs.Steps.{AreNets, AreRuled, StopsAtRule, specs_of};

use crate::assertion::Assertion;
use crate::assertions::{Assertions, copied};
use crate::builder::Builder;
use crate::circuit::Circuit;
use crate::drivers::drivers;
use crate::instance::Instance;
use crate::net::Net;
use crate::net_table::NetTable;
use crate::order::by_name;
use crate::passages::no_loop;
use crate::readers::readers;
use scald_base::{AssertSpec, List, NoMemory, Stop};
use std::alloc::Global;

impl Builder {
    /// The circuit. `TwoDrivers` comes exactly if an output is a constant, or a net that an
    /// earlier one drives, at the first such instance; and else `ZeroLoop` exactly if instances
    /// pass on at once round a loop, at the first instance that can be reached from one.
    pub fn finish(self) -> Result<Circuit, Stop>
        ensures { MatchResult result (Stands self) (IsRefusal self) }
    {
        let Builder {
            alloc,
            header,
            nets: table,
            assertions,
            instances,
            outputs: _,
            checkers: _,
            pins: _,
            recent: _,
        } = self;
        let nets = checked_nets(alloc, table, &assertions, instances.as_slice())?;
        let readers = readers(alloc, instances.as_slice(), nets.len())?;
        let order = by_name(alloc, nets.as_slice())?;
        Ok(Circuit {
            header,
            nets,
            instances,
            readers,
            order,
        })
    }
}

/// The nets with their drivers, if the rules hold. The table of names goes before the readers
/// are listed.
fn checked_nets(
    alloc: Global,
    table: NetTable,
    assertions: &Assertions,
    instances: &[Instance],
) -> Result<List<Net>, Stop>
    requires within { All (InstanceExists (length table.names)) instances.now }
    requires few { length instances.now < 2 ^ 32 }
    ensures { MatchResult result
        (AreRuled table.names table.wires (specs_of assertions.now table.names) instances.now)
        (StopsAtRule table.wires instances.now) }
{
    let drivers = drivers(alloc, instances, table.len())?;
    no_loop(alloc, &table, &drivers, instances)?;
    let nets = nets(alloc, table, assertions, &drivers)?;
    Ok(nets)
}

/// The nets with what the table says of them, what is asserted of them and what drives them. Their
/// names are moved.
fn nets(
    alloc: Global,
    table: NetTable,
    assertions: &Assertions,
    drivers: &[Option<u32>],
) -> Result<List<Net>, NoMemory>
    requires { length drivers.now ≡ length table.names }
    ensures { IfOk result
        (AreNets table.names table.wires (specs_of assertions.now table.names) drivers.now) }
{
    let mut nets = List::new(alloc);
    for entry in table.into_entries() {
        let (name, wire) = entry;
        let spec = spec_of(alloc, nets.as_slice(), assertions, name.text.as_slice())?;
        let driver = drivers[nets.len()];
        nets.push(Net {
            name: name.text,
            spec,
            driver,
            wire,
            bit: name.bit,
        })?;
    }
    Ok(nets)
}

/// What is asserted of a text: the same as of the last net, if that is of its vector.
fn spec_of(
    alloc: Global,
    nets: &[Net],
    assertions: &Assertions,
    text: &[u8],
) -> Result<Assertion, NoMemory>
    requires { All (λ n. n.spec ≡ spec_for assertions.now n.name) nets.now }
    ensures { IfOk result (λ spec. spec ≡ spec_for assertions.now text.now) }
{
    let spec = match nets.last() {
        Some(before) if before.name.as_slice() == text => copied(
            alloc,
            before.spec.or(&AssertSpec::None),
        )?,
        _ => assertions.of(alloc, text)?,
    };
    Assertion::of(alloc, spec)
}
