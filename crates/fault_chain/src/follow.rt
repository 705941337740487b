//! The chain of a fault, link by link.

ghost use Rattle.std.specs.Prelude.{◌≡◌, ◌<◌, [], IfOk, IfSome, false, length, replicate};
ghost use Rattle.std.specs.List.{All};
ghost use Rattle.fixpoint_engine.specs.Waves.{FitWaves, waves_of};
ghost use Rattle.fault_chain.specs.Chain.{chain_from, chain_of as chain_of_fault, first_link as first_of};
ghost use Rattle.fault_chain.specs.Met.{HasMet};

use crate::chain::{Chain, End, Link, Links};
use crate::link::{link_at_net, link_at_pin, next_link};
use fixpoint_engine::{NetSet, Waves};
use flat_circuit::{Circuit, Fault};
use scald_base::NoMemory;
use std::alloc::Global;
use step_values::Value;
use wave_core::{Cell, CyclicWave};

/// The first link of a fault.
fn first_link<W: CyclicWave<Item = Value>>(
    c: &Circuit,
    waves: &Waves<W>,
    fault: Fault,
) -> Option<Link>
    requires fit { FitWaves c.now waves.now }
    ensures is { result ≡ first_of c.now (waves_of waves.now) fault }
    ensures net { IfSome result (λ link. link.net < length c.now.nets) }
{
    match fault {
        Fault::Point { instance, slot, .. } => link_at_pin(c, waves, instance, 1, slot),
        Fault::Width { instance, from, .. } => link_at_pin(c, waves, instance, 0, from),
        Fault::Hazard {
            instance,
            slot,
            pin,
        } => link_at_pin(c, waves, instance, pin, slot),
        Fault::Assertion { net, slot, .. } => link_at_net(c, waves, net, slot),
    }
}

/// The links from one on that may change, in a circuit of whose nets none was met. Each net is met
/// once; after as many links as there are nets the next one is on a net that was met.
fn followed<W: CyclicWave<Item = Value>>(
    alloc: Global,
    c: &Circuit,
    waves: &Waves<W>,
    met: &mut NetSet,
    first: Link,
) -> Result<Chain, NoMemory>
    requires met { met.old ≡ replicate (length c.now.nets) false }
    requires net { first.net < length c.now.nets }
    requires fit { FitWaves c.now waves.now }
    ensures is { IfOk result (λ chain.
        chain ≡ chain_from c.now (waves_of waves.now) (length c.now.nets) [] first) }
    ensures nets { IfOk result (λ chain. All (λ link. link.net < length c.now.nets) chain.links) }
    ensures met { IfOk result (λ chain. HasMet (length c.now.nets) chain.links met.new) }
{
    c.known();
    let mut links = Links::new(alloc);
    let mut link = first;
    for passed in 0..c.net_count() {
        links.push(link)?;
        if met.has(link.net) {
            return Ok(Chain {
                links,
                end: End::Repeat,
            });
        }
        met.add(link.net);
        let element = match c.driver_of(link.net) {
            Some(element) => element,
            None => {
                return Ok(Chain {
                    links,
                    end: End::Undriven,
                });
            }
        };
        link = match next_link(c, waves, element, link.slot) {
            Some(next) => next,
            None => {
                return Ok(Chain {
                    links,
                    end: End::Both,
                });
            }
        };
    }
    links.push(link)?;
    Ok(Chain {
        links,
        end: End::Repeat,
    })
}

/// Forgets the nets of these links.
fn forget(met: &mut NetSet, links: &[Link])
    requires nets { All (λ link. link.net < length met.old) links.now }
    requires met { HasMet (length met.old) links.now met.old }
    ensures { met.new ≡ replicate (length met.old) false }
{
    for link in links {
        met.remove(link.net);
    }
}

/// The chain of a fault in these waves. `met`, which has a place for each net, is empty before and
/// after; `NoMemory` comes if memory runs out, and `met` is of no use then.
pub fn chain_of<W: CyclicWave<Item = Value>>(
    alloc: Global,
    c: &Circuit,
    waves: &Waves<W>,
    met: &mut NetSet,
    fault: Fault,
) -> Result<Chain, NoMemory>
    requires met { met.old ≡ replicate (length c.now.nets) false }
    requires fit { FitWaves c.now waves.now }
    ensures is { IfOk result (λ chain. chain ≡ chain_of_fault c.now (waves_of waves.now) fault) }
    ensures met { IfOk result (λ _. met.new ≡ replicate (length c.now.nets) false) }
{
    let link = match first_link(c, waves, fault) {
        Some(link) => link,
        None => {
            return Ok(Chain {
                links: Links::new(alloc),
                end: End::Undriven,
            });
        }
    };
    if link.value.quiet() {
        let mut links = Links::new(alloc);
        links.push(link)?;
        return Ok(Chain {
            links,
            end: End::Level,
        });
    }
    let chain = followed(alloc, c, waves, met, link)?;
    forget(met, chain.links.as_slice());
    Ok(chain)
}
