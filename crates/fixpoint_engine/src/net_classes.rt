//! The classes by which rounds go.

ghost use Rattle.std.specs.Prelude.{IfOk};
ghost use Rattle.fixpoint_engine.specs.NetClasses.{AreClasses};

use crate::class_nets::ClassNets;
use crate::hearers::Hearers;
use flat_circuit::{CaseList, Circuit, classes, stable};
use scald_base::NoMemory;
use std::alloc::Global;

/// The classes of a circuit's nets, of each of which one net is evaluated; or none, if something
/// tells the nets of a class apart, and each net is evaluated by itself.
#[derive(Drop)]
pub struct NetClasses {
    /// The nets of each class.
    pub nets: Option<ClassNets>,
    /// What hears each class.
    pub hearers: Hearers,
}

impl NetClasses {
    /// The classes of a circuit and its cases. `NoMemory` comes if memory runs out.
    pub fn of(alloc: Global, c: &Circuit, cases: &CaseList) -> Result<NetClasses, NoMemory>
        ensures { IfOk result (AreClasses c.now cases.now) }
    {
        let numbers = classes(alloc, c, cases)?;
        if !stable(c, cases, &numbers) {
            return Ok(NetClasses {
                nets: None,
                hearers: Hearers::none(alloc),
            });
        }
        let nets = ClassNets::of(alloc, &numbers, c.net_count())?;
        let hearers = Hearers::of(alloc, c, &nets)?;
        Ok(NetClasses {
            nets: Some(nets),
            hearers,
        })
    }
}
