//! The parameters that a use gives.

ghost use Rattle.std.specs.Prelude.{◌≡◌, map};
ghost use Rattle.std.specs.List.{find, list_any};
ghost use Rattle.std.specs.Option.{option_copied};
ghost use Rattle.drawing_tree.specs.Tree.{assignment_of};
ghost use Rattle.macro_expander.specs.Primitives.{assigned as spec_assigned, values_given as spec_values_given, is_named, assigns, given_or_zero};
ghost use Rattle.macro_expander.specs.Steps.{JudgedAt};

use crate::places::Called;
use crate::range::{at, value};
use drawing_tree::{Assign, Assigns, Binding, Env};
use scald_base::{Bytes, List, Place, Stop};
use std::alloc::Global;

impl Called for Assign {
    ghost name = { λ a. a.name };

    fn name(&self) -> &[u8] {
        self.name.as_slice()
    }
}

impl Called for Binding {
    ghost name = { λ b. b.name };

    fn name(&self) -> &[u8] {
        self.name.as_slice()
    }
}

/// The name of a parameter or a constant with its value.
pub(crate) fn assigned(
    alloc: Global,
    param: &Assign,
    env: &Env,
    place: Place,
) -> Result<Binding, Stop>
    ensures { JudgedAt place result (spec_assigned env.now (assignment_of param.now)) }
{
    let value = at(place, value(&param.value, env))?;
    let name = Bytes::of(alloc, param.name.as_slice())?;
    Ok(Binding { name, value })
}

/// The values that a use gives, in the order of its text. The first that has none is refused at
/// this place; `NoMemory` comes if memory runs out.
pub fn values_given(alloc: Global, params: &Assigns, env: &Env, place: Place) -> Result<Env, Stop>
    ensures { JudgedAt place result (spec_values_given env.now (map assignment_of params.now)) }
{
    let mut given = List::new(alloc);
    for param in params.as_slice() {
        given.push(assigned(alloc, param, env, place)?)?;
    }
    Ok(given)
}

/// Whether a name is given again.
pub(crate) fn comes_again(params: &[Assign], name: &[u8]) -> bool
    ensures { result ≡ list_any (assigns name.now) (map assignment_of params.now) }
{
    for param in params {
        if param.name.as_slice() == name {
            return true;
        }
    }
    false
}

/// The value that a use gives to a parameter.
pub(crate) fn find_given<'a>(given: &'a Env, name: &[u8]) -> Option<&'a Binding>
    ensures { option_copied result ≡ find (is_named name.now) given.now }
{
    given
        .as_slice()
        .iter()
        .find(|binding| binding.name.as_slice() == name)
}

/// The value of a parameter, 0 if the use gives none.
pub(crate) fn value_given(given: &Env, name: &[u8]) -> i64
    ensures { result ≡ given_or_zero given.now name.now }
{
    match find_given(given, name) {
        None => 0,
        Some(binding) => binding.value,
    }
}
