//! The constants of a drawing.

ghost use Rattle.std.specs.Prelude.{◌≡◌, IfOk, length, map};
ghost use Rattle.drawing_tree.specs.Tree.{assignment_of};
ghost use Rattle.macro_expander.specs.Constants.{ConstsAt};

use crate::parameter::assigned;
use crate::turn::add_bindings;
use drawing_tree::{Assigns, Env, Places};
use scald_base::{List, NoMemory, Stop};
use std::alloc::Global;

/// The constants with their values, each evaluated with those before it; or the refusal of the
/// first that has no value, at its word CONST. `NoMemory` comes if memory runs out.
pub fn constants(alloc: Global, consts: &Assigns, places: &Places) -> Result<Env, Stop>
    requires { length places.now ≡ length consts.now }
    ensures { ConstsAt result (map assignment_of consts.now) places.now }
{
    let consts = consts.as_slice();
    let places = places.as_slice();
    let mut known: Env = List::new(alloc);
    for i in 0..consts.len() {
        let valued = assigned(alloc, &consts[i], &known, places[i])?;
        known.push(valued)?;
    }
    Ok(known)
}

/// A copy of the constants. `NoMemory` comes if memory runs out.
pub fn copied_env(alloc: Global, env: &Env) -> Result<Env, NoMemory>
    ensures { IfOk result (λ copy. copy ≡ env.now) }
{
    let mut copy: Env = List::new(alloc);
    add_bindings(alloc, &mut copy, env.as_slice())?;
    Ok(copy)
}
