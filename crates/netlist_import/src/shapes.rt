//! What a use of a macro needs to know of it.

ghost use Rattle.std.specs.Prelude.{◌≡◌, [], ◌∷◌, ◌++◌, IfOk, OnOk, map};
ghost use Rattle.netlist_import.specs.Kinds.{formal_of, formals_of};
ghost use Rattle.netlist_import.specs.Fresh.{fresh, names_after};
ghost use Rattle.netlist_import.specs.Shapes.{shaped};
ghost use Rattle.netlist_import.specs.Words.{kind_word_of};

use crate::kinds::Kind;
use crate::names::Names;
use crate::netlist::{Direction, Module, Port};
use crate::words::kind_word_of;
use scald_base::{Bytes, List, NoMemory};
use std::alloc::Global;

/// A port of a macro.
#[derive(Drop)]
pub struct Formal {
    /// Its name in the netlist.
    pub name: Bytes,
    pub direction: Direction,
    /// How many bits it has.
    pub width: usize,
}

/// The ports of a macro, in their order.
pub type Formals = List<Formal>;

/// A macro: what it is called, and its ports.
#[derive(Drop)]
pub struct Shape {
    pub name: Bytes,
    pub ports: Formals,
}

/// The macros that there are, in their order.
pub type Shapes = List<Shape>;

/// The port of a macro that a port of a module or a connection of a cell asks for.
pub(crate) fn formal_of(alloc: Global, port: &Port) -> Result<Formal, NoMemory>
    ensures { IfOk result (λ formal. formal ≡ formal_of port.now) }
{
    Ok(Formal {
        name: Bytes::of(alloc, port.name.as_slice())?,
        direction: port.direction,
        width: port.bits.len(),
    })
}

/// The ports of a macro, those without bits left out.
pub(crate) fn formals_of(alloc: Global, ports: &[Port]) -> Result<Formals, NoMemory>
    ensures { IfOk result (λ formals. formals ≡ formals_of ports.now) }
{
    let mut formals = List::new(alloc);
    for port in ports {
        if !port.bits.is_empty() {
            formals.push(formal_of(alloc, port)?)?;
        }
    }
    Ok(formals)
}

/// Takes the name of a macro that a module or a type of cells becomes.
fn take_name(alloc: Global, names: &mut Names, name: &[u8]) -> Result<Bytes, NoMemory>
    ensures names { IfOk result (λ word. names.new ≡ names.old ++ word ∷ []) }
    ensures word { IfOk result (λ word. word ≡ fresh names.old (kind_word_of name.now)) }
{
    let wanted = kind_word_of(alloc, name)?;
    names.fresh(alloc, wanted)
}

/// The macro that a module is.
fn shape_of(alloc: Global, names: &mut Names, module: &Module) -> Result<Shape, NoMemory>
    ensures names { IfOk result (λ shape. names.new ≡ names.old ++ shape.name ∷ []) }
    ensures shape { IfOk result (λ shape. shape ≡ record {
      name = fresh names.old (kind_word_of «module».now.name);
      ports = formals_of «module».now.ports;
    }) }
{
    let ports = formals_of(alloc, module.ports.as_slice())?;
    let name = take_name(alloc, names, module.name.as_slice())?;
    Ok(Shape { name, ports })
}

/// Adds the macros of all modules.
#[tactic(auto, unfolding(crate::specs::Fresh::names_after, crate::specs::Shapes::shaped))]
fn add_modules(
    alloc: Global,
    names: &mut Names,
    modules: &[Module],
    shapes: &mut Shapes,
) -> Result<(), NoMemory>
    ensures names { OnOk result (names.new ≡ names.old
        ++ names_after names.old (map (λ m. kind_word_of m.name) modules.now)) }
    ensures shapes { OnOk result (shapes.new ≡ shapes.old
        ++ shaped (names_after names.old (map (λ m. kind_word_of m.name) modules.now))
        (map (λ m. formals_of m.ports) modules.now)) }
{
    for module in modules {
        shapes.push(shape_of(alloc, names, module)?)?;
    }
    Ok(())
}

/// The macro that the cells of a kind use.
fn shape_of_kind(alloc: Global, names: &mut Names, kind: &Kind) -> Result<Shape, NoMemory>
    ensures names { IfOk result (λ shape. names.new ≡ names.old ++ shape.name ∷ []) }
    ensures shape { IfOk result (λ shape. shape ≡ record {
      name = fresh names.old (kind_word_of kind.now.kind);
      ports = kind.now.ports;
    }) }
{
    let ports = kind.ports.formals(alloc)?;
    let name = take_name(alloc, names, kind.kind.as_slice())?;
    Ok(Shape { name, ports })
}

/// Adds the macros of all kinds.
#[tactic(auto, unfolding(crate::specs::Fresh::names_after, crate::specs::Shapes::shaped))]
fn add_kinds(
    alloc: Global,
    names: &mut Names,
    kinds: &[Kind],
    shapes: &mut Shapes,
) -> Result<(), NoMemory>
    ensures { OnOk result (shapes.new ≡ shapes.old
        ++ shaped (names_after names.old (map (λ k. kind_word_of k.kind) kinds.now))
        (map (λ k. k.ports) kinds.now)) }
{
    for kind in kinds {
        shapes.push(shape_of_kind(alloc, names, kind)?)?;
    }
    Ok(())
}

/// Puts the macros of all modules, and then of all kinds, into `shapes`, which is empty.
fn add_shapes(
    alloc: Global,
    modules: &[Module],
    kinds: &[Kind],
    shapes: &mut Shapes,
) -> Result<(), NoMemory>
    requires { shapes.old ≡ [] }
    ensures { OnOk result (shapes.new ≡ shaped
        (names_after [] (map (λ m. kind_word_of m.name) modules.now
        ++ map (λ k. kind_word_of k.kind) kinds.now))
        (map (λ m. formals_of m.ports) modules.now ++ map (λ k. k.ports) kinds.now)) }
{
    let mut names = Names::new(alloc);
    add_modules(alloc, &mut names, modules, shapes)?;
    add_kinds(alloc, &mut names, kinds, shapes)
}

/// The macros of all modules, and then of all kinds.
pub(crate) fn shapes_of(
    alloc: Global,
    modules: &[Module],
    kinds: &[Kind],
) -> Result<Shapes, NoMemory>
    ensures { IfOk result (λ shapes. shapes ≡ shaped
        (names_after [] (map (λ m. kind_word_of m.name) modules.now
        ++ map (λ k. kind_word_of k.kind) kinds.now))
        (map (λ m. formals_of m.ports) modules.now ++ map (λ k. k.ports) kinds.now)) }
{
    let mut shapes = List::new(alloc);
    add_shapes(alloc, modules, kinds, &mut shapes)?;
    Ok(shapes)
}
