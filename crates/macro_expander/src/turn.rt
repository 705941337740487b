//! The turns of a FOR: the scope of its body for one value of its variable.

ghost use Rattle.std.specs.Prelude.{◌≡◌, ◌++◌, ◌∷◌, IfOk, OnOk};
ghost use Rattle.macro_expander.specs.Loops.{binding, turn_text};
ghost use Rattle.macro_expander.specs.Statements.{AreEnds, IsTurn, turned_scope};

use crate::range::{at, value};
use crate::scope::Scope;
use drawing_tree::{Binding, Env, ForStmt};
use itoa::Buffer;
use scald_base::{Bytes, List, NoMemory, Stop};
use std::alloc::Global;

/// The first and the last value of a FOR, both evaluated in the scope around it, or the refusal of
/// the first that has none, at the word FOR.
pub fn loop_ends(repeated: &ForStmt, env: &Env) -> Result<(i64, i64), Stop>
    ensures { AreEnds env.now repeated.now result }
{
    let first = at(repeated.place, value(&repeated.first, env))?;
    let last = at(repeated.place, value(&repeated.last, env))?;
    Ok((first, last))
}

fn bound(alloc: Global, var: &[u8], value: i64) -> Result<Binding, NoMemory>
    ensures { IfOk result (λ b. b ≡ binding var.now value) }
{
    let name = Bytes::of(alloc, var)?;
    Ok(Binding { name, value })
}

/// What follows the labels of a FOR's body: what follows those around it, and this value.
fn suffix(alloc: Global, around: &[u8], value: i64) -> Result<Bytes, NoMemory>
    ensures { IfOk result (λ suffix. suffix ≡ around.now ++ turn_text value) }
{
    let mut suffix = Bytes::of(alloc, around)?;
    suffix.extend(b"#".as_slice())?;
    suffix.extend(Buffer::new().format(value).as_bytes())?;
    Ok(suffix)
}

/// Puts copies of bindings after others. `NoMemory` comes if memory runs out.
pub fn add_bindings(alloc: Global, env: &mut Env, more: &[Binding]) -> Result<(), NoMemory>
    ensures { OnOk result (env.new ≡ env.old ++ more.now) }
{
    for given in more {
        env.push(bound(alloc, given.name.as_slice(), given.value)?)?;
    }
    Ok(())
}

/// The names that have values in a FOR's body: its variable before all others.
fn env_in_turn(alloc: Global, around: &[Binding], var: &[u8], value: i64) -> Result<Env, NoMemory>
    ensures { IfOk result (λ env. env ≡ binding var.now value ∷ around.now) }
{
    let mut env: Env = List::new(alloc);
    env.push(bound(alloc, var, value)?)?;
    add_bindings(alloc, &mut env, around)?;
    Ok(env)
}

/// The scope of a FOR's body for a value of its variable. `NoMemory` comes if memory runs out.
pub fn in_turn(
    alloc: Global,
    around: &Scope,
    repeated: &ForStmt,
    value: i64,
) -> Result<Scope, NoMemory>
    ensures { IfOk result (λ inner. inner ≡ turned_scope repeated.now.var value around.now) }
{
    Ok(Scope {
        path: Bytes::of(alloc, around.path.as_slice())?,
        suffix: suffix(alloc, around.suffix.as_slice(), value)?,
        env: env_in_turn(alloc, around.env.as_slice(), repeated.var.as_slice(), value)?,
        formals: around.formals.copy(alloc)?,
    })
}

/// The same scope for another value: what is around is not copied again. `NoMemory` comes if
/// memory runs out.
pub fn turn_to(
    alloc: Global,
    inner: &mut Scope,
    around: &Scope,
    repeated: &ForStmt,
    value: i64,
) -> Result<(), NoMemory>
    requires { IsTurn repeated.now.var around.now inner.old }
    ensures { OnOk result (inner.new ≡ turned_scope repeated.now.var value around.now) }
{
    let suffix = suffix(alloc, around.suffix.as_slice(), value)?;
    let binding = bound(alloc, repeated.var.as_slice(), value)?;
    inner.suffix = suffix;
    inner.env.set(0, binding);
    Ok(())
}
