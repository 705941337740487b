//! What is asserted of one net.

ghost use Rattle.std.specs.Prelude.{◌≡◌, IfOk};
ghost use Rattle.scald_base.specs.declared.assertion.AssertSpec.TheVariants.{None as Unasserted};

use scald_base::{AssertSpec, NoMemory};
use std::alloc::Global;
use std::marker::Model;

/// What the name of a net asserts, which contracts see as just that. Most names assert nothing, so
/// an assertion has memory of its own.
#[derive(Drop, Debug)]
pub struct Assertion {
    spec: Option<Box<AssertSpec>>,
}

impl Model for Assertion {
    ghost use Rattle.scald_base.specs.declared.assertion.AssertSpec.{AssertSpec};
    ghost use Rattle.flat_circuit.specs.Assertion.{spec_in};

    ghost Value = { AssertSpec };

    ghost view = { λ a. spec_in a.spec };
}

impl Assertion {
    /// This assertion. It needs no allocation if nothing is asserted.
    pub fn of(alloc: Global, spec: AssertSpec) -> Result<Assertion, NoMemory>
        ensures { IfOk result (λ made. made ≡ spec) }
    {
        let spec = match spec {
            AssertSpec::None => None,
            some => Some(Box::new(alloc, some)?),
        };
        Ok(Assertion { spec })
    }

    /// What is asserted; if that is nothing, the nothing that is given.
    pub fn or<'a>(&'a self, nothing: &'a AssertSpec) -> &'a AssertSpec
        requires { nothing.now ≡ Unasserted }
        ensures { result.now ≡ self.now }
    {
        match &self.spec {
            None => nothing,
            Some(spec) => spec,
        }
    }
}
