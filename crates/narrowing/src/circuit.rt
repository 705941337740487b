//! The narrowed circuit, built anew of the parts of the circuit. That its nets are those of the
//! definition is tested, and that a clock which is moved fits the period. The bits of one vector
//! have one assertion, so a clock of several bits is not moved.

ghost use Rattle.std.specs.Prelude.{◌≡◌, ◌++◌, ◌∷◌, [], IfOk, IfSome, IsTrue, Ok, length};
ghost use Rattle.scald_base.specs.Fitting.{Fits};
ghost use Rattle.flat_circuit.specs.Builder.{empty};
ghost use Rattle.flat_circuit.specs.Instances.{InstanceFits};
ghost use Rattle.narrowing.specs.Building.{HasNet, HasNets};
ghost use Rattle.narrowing.specs.Narrowed.{fine_header, narrowed, narrowed_from};

use crate::instance::narrowed_instance;
use crate::moved::fine_header;
use crate::net::spec_in;
use crate::part::Part;
use crate::same::{has_narrowed_nets, has_order_of};
use assertion_syntax::fits;
use flat_circuit::{Builder, Circuit, Instance, Net};
use scald_base::{AssertSpec, Header, NoMemory, Place, Stop};
use std::alloc::Global;

/// A place that stands in no text: nothing is refused of a narrowed circuit.
const NOWHERE: Place = Place { line: 0, col: 0 };

/// What was made, or nothing if it is refused.
fn unless_refused<T: Drop>(made: Result<T, Stop>) -> Result<Option<T>, NoMemory>
    ensures { IfOk result (λ found. IfSome found (λ value. made ≡ Ok value)) }
{
    match made {
        Ok(value) => Ok(Some(value)),
        Err(Stop::Refused(_)) => Ok(None),
        Err(Stop::NoMemory) => Err(NoMemory),
    }
}

/// Adds a net with an assertion that fits, if it gets this number.
#[tactic(auto, using(crate::proofs::Building::net_header, crate::proofs::Building::net_instances))]
fn add_net(
    builder: &mut Builder,
    fine: &Header,
    net: &Net,
    spec: &AssertSpec,
    number: u32,
) -> Result<bool, NoMemory>
    requires header { builder.old.header ≡ fine.now }
    requires fits { Fits fine.now spec.now }
    ensures { IfOk result (λ is. IsTrue is → HasNet builder.old builder.new number) }
{
    let _ = fine;
    let given = builder.net(&[], net.name.as_slice(), net.bit, spec, NOWHERE);
    match unless_refused(given)? {
        None => Ok(false),
        Some(given) => {
            builder.wire(given, net.wire);
            Ok(given == number)
        }
    }
}

/// Adds the net of a number as parts narrow it, if its assertion then fits.
fn add_narrowed(
    alloc: Global,
    builder: &mut Builder,
    fine: &Header,
    c: &Circuit,
    number: u32,
    parts: &[Part],
) -> Result<bool, NoMemory>
    requires { builder.old.header ≡ fine.now }
    ensures { IfOk result (λ is. IsTrue is → HasNet builder.old builder.new number) }
{
    let Some(net) = c.net(number) else {
        return Ok(false);
    };
    let Some(spec) = spec_in(alloc, c.header(), net, number, parts)? else {
        return Ok(false);
    };
    match fits(&spec, fine) {
        Ok(()) => add_net(builder, fine, net, &spec, number),
        Err(_) => Ok(false),
    }
}

fn add_nets(
    alloc: Global,
    builder: &mut Builder,
    fine: &Header,
    c: &Circuit,
    parts: &[Part],
) -> Result<bool, NoMemory>
    requires { builder.old ≡ empty fine.now }
    ensures { IfOk result (λ is. IsTrue is → HasNets fine.now c.now builder.new) }
{
    for number in 0..c.net_count() {
        if !add_narrowed(alloc, builder, fine, c, number, parts)? {
            return Ok(false);
        }
    }
    Ok(true)
}

fn add_instance(builder: &mut Builder, instance: Instance) -> Result<bool, NoMemory>
    requires { InstanceFits builder.old.header (length builder.old.names) instance }
    ensures { IfOk result (λ is. IsTrue is → builder.new
        ≡ record builder.old { instances = builder.old.instances ++ instance ∷ [] }) }
{
    Ok(unless_refused(builder.instance(instance))?.is_some())
}

fn add_instances(
    alloc: Global,
    builder: &mut Builder,
    c: &Circuit,
    parts: &[Part],
) -> Result<bool, NoMemory>
    requires { HasNets (fine_header c.now.header) c.now builder.old }
    ensures header { IfOk result (λ is. IsTrue is →
        builder.new.header ≡ fine_header c.now.header) }
    ensures are { IfOk result (λ is. IsTrue is →
        builder.new.instances ≡ narrowed_from parts.now 0 c.now.instances) }
{
    c.known();
    for k in 0..c.instance_count() {
        let Some(i) = c.instance(k) else {
            return Ok(false);
        };
        let Some(narrowed) = narrowed_instance(alloc, i, k, parts)? else {
            return Ok(false);
        };
        if !add_instance(builder, narrowed)? {
            return Ok(false);
        }
    }
    Ok(true)
}

/// The circuit with the bounds of the parts in place of its own; or `None` if a part is of
/// delays or of a clock that the circuit has not, or a clock is not moved. If memory runs out,
/// `NoMemory`.
#[tactic(auto, using(crate::proofs::Building::same_circuit))]
pub fn narrow(alloc: Global, c: &Circuit, parts: &[Part]) -> Result<Option<Circuit>, NoMemory>
    ensures { IfOk result (λ found. IfSome found (λ n. n ≡ narrowed c.now parts.now)) }
{
    let fine = fine_header(c.header());
    let mut builder = Builder::new(alloc, fine);
    if !add_nets(alloc, &mut builder, &fine, c, parts)? {
        return Ok(None);
    }
    if !add_instances(alloc, &mut builder, c, parts)? {
        return Ok(None);
    }
    match unless_refused(builder.finish())? {
        None => Ok(None),
        Some(made) => {
            if has_narrowed_nets(alloc, &made, c, parts)? && has_order_of(&made, c) {
                Ok(Some(made))
            } else {
                Ok(None)
            }
        }
    }
}
