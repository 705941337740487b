//! The constraint that a fault is of.

ghost use Rattle.std.specs.Prelude.{◌≡◌};
ghost use Rattle.narrowing.specs.Constraint.{constraint_of};

use flat_circuit::Fault;

/// What is asked of a run at one place. Instances and nets go by their numbers.
#[derive(Clone, Copy, PartialEq, Eq, Debug)]
pub enum Constraint {
    /// That an input stays about the edges of a checker's clock, or that the other pins of an
    /// element stay while the marked one lets them through.
    Instance(u32),
    /// That a checker's high pulses, or its low ones, have a width.
    Pulse { instance: u32, high: bool },
    /// That a driven net keeps what its name asserts.
    Net(u32),
}

/// The constraint that a fault is of.
pub fn constraint_of(fault: Fault) -> Constraint
    ensures { result ≡ constraint_of fault }
{
    match fault {
        Fault::Point { instance, .. } => Constraint::Instance(instance),
        Fault::Width { instance, high, .. } => Constraint::Pulse { instance, high },
        Fault::Hazard { instance, .. } => Constraint::Instance(instance),
        Fault::Assertion { net, .. } => Constraint::Net(net),
    }
}
