//! The macros of a netlist.

ghost use Rattle.std.specs.Prelude.{◌≡◌, ◌∷◌, ◌++◌, [], IfOk, OnOk, drop, length, map};
ghost use Rattle.drawing_tree.specs.Canonical.{line, macro_head, macro_lines};
ghost use Rattle.netlist_import.specs.Design.{boxes_written, cell_macros, design_macros, empty_macro, macros_text, modules_written};
ghost use Rattle.netlist_import.specs.Fresh.{fresh, names_after};
ghost use Rattle.netlist_import.specs.Kinds.{all_uses};
ghost use Rattle.netlist_import.specs.Shapes.{number_of_used, shapes};
ghost use Rattle.netlist_import.specs.Words.{word_of};

use crate::body::add_module;
use crate::head::add_head;
use crate::kinds::{Kinds, Targets, all_targets};
use crate::names::Names;
use crate::netlist::Module;
use crate::shapes::{Formal, Shape, Shapes, shapes_of};
use crate::types::Types;
use crate::words::word_of;
use scald_base::{Bytes, List, NoMemory};
use std::alloc::Global;

/// The macros of a netlist: those of its modules, and then those of the kinds of its other cells.
#[derive(Drop)]
struct Library {
    shapes: Shapes,
    /// The macros that the cells of each module use.
    targets: List<Targets>,
}

fn library_of(alloc: Global, modules: &[Module]) -> Result<Library, NoMemory>
    ensures shapes { IfOk result (λ library. library.shapes ≡ shapes modules.now) }
    ensures targets { IfOk result (λ library. library.targets
        ≡ map (map (number_of_used modules.now)) (all_uses modules.now)) }
{
    let mut kinds = Kinds::new(alloc);
    let targets = all_targets(alloc, modules, &mut kinds)?;
    let shapes = shapes_of(alloc, modules, kinds.list())?;
    Ok(Library { shapes, targets })
}

/// Puts the macros of all modules that are no black boxes at the end of `out`.
#[tactic(auto, unfolding(crate::specs::Design::modules_written))]
fn add_modules(
    alloc: Global,
    out: &mut Bytes,
    modules: &[Module],
    shapes: &[Shape],
    targets: &[Targets],
) -> Result<(), NoMemory>
    ensures { OnOk result (out.new ≡ out.old
        ++ macros_text (modules_written shapes.now modules.now shapes.now targets.now)) }
{
    for (place, module) in modules.iter().enumerate() {
        let Some(shape) = shapes.get(place) else {
            return Ok(());
        };
        let Some(targets) = targets.get(place) else {
            return Ok(());
        };
        if !module.is_black_box {
            add_module(alloc, out, module, shape, targets, shapes)?;
        }
    }
    Ok(())
}

/// Puts the macros of all modules that are no black boxes at the end of `out`, in the order of the
/// netlist.
pub(crate) fn add_design(alloc: Global, out: &mut Bytes, modules: &[Module]) -> Result<(), NoMemory>
    ensures { OnOk result (out.new ≡ out.old ++ macros_text (design_macros modules.now)) }
{
    let library = library_of(alloc, modules)?;
    let shapes = library.shapes.as_slice();
    add_modules(alloc, out, modules, shapes, library.targets.as_slice())
}

/// Takes the name that a port of a macro has in it.
fn take_name(alloc: Global, names: &mut Names, port: &Formal) -> Result<(), NoMemory>
    ensures { OnOk result (names.new ≡ names.old ++ fresh names.old (word_of port.now.name) ∷ []) }
{
    let wanted = word_of(alloc, port.name.as_slice())?;
    names.take(alloc, wanted)
}

/// Takes the names that the ports of a macro have in it.
#[tactic(auto, unfolding(crate::specs::Fresh::names_after))]
fn take_names(alloc: Global, names: &mut Names, ports: &[Formal]) -> Result<(), NoMemory>
    ensures { OnOk result (names.new
        ≡ names.old ++ names_after names.old (map (λ f. word_of f.name) ports.now)) }
{
    for port in ports {
        take_name(alloc, names, port)?;
    }
    Ok(())
}

/// Puts the first line of a macro with nothing in it at the end of `out`.
fn add_shape_head(alloc: Global, out: &mut Bytes, shape: &Shape) -> Result<(), NoMemory>
    ensures { OnOk result (out.new ≡ out.old ++ line [] (macro_head (empty_macro shape.now))) }
{
    let ports = shape.ports.as_slice();
    let mut names = Names::new(alloc);
    take_names(alloc, &mut names, ports)?;
    add_head(out, shape.name.as_slice(), ports, names.as_slice())
}

/// Puts a macro with nothing in it at the end of `out`.
#[tactic(auto, unfolding(drawing_tree::specs::Canonical::macro_lines, drawing_tree::specs::Canonical::body_lines, drawing_tree::specs::Canonical::macro_head, drawing_tree::specs::Canonical::statements_lines))]
fn add_empty(alloc: Global, out: &mut Bytes, shape: &Shape) -> Result<(), NoMemory>
    ensures { OnOk result (out.new ≡ out.old ++ macro_lines (empty_macro shape.now)) }
{
    add_shape_head(alloc, out, shape)?;
    out.extend(b"END;\n")
}

/// Puts macros with nothing in them at the end of `out`.
fn add_kinds(alloc: Global, out: &mut Bytes, shapes: &[Shape]) -> Result<(), NoMemory>
    ensures { OnOk result (out.new ≡ out.old ++ macros_text (map empty_macro shapes.now)) }
{
    for shape in shapes {
        add_empty(alloc, out, shape)?;
    }
    Ok(())
}

/// Puts the macros of the black boxes that some cell uses at the end of `out`.
#[tactic(auto, unfolding(crate::specs::Design::boxes_written))]
fn add_boxes(
    alloc: Global,
    out: &mut Bytes,
    types: &Types,
    modules: &[Module],
    shapes: &[Shape],
) -> Result<(), NoMemory>
    ensures { OnOk result (out.new ≡ out.old ++ macros_text
        (boxes_written types.now modules.now shapes.now)) }
{
    for (place, module) in modules.iter().enumerate() {
        let Some(shape) = shapes.get(place) else {
            return Ok(());
        };
        if module.is_black_box && types.is_used(module.name.as_slice()) {
            add_empty(alloc, out, shape)?;
        }
    }
    Ok(())
}

/// The macros after so many, which are those of the modules.
#[tactic(auto, using(std::proofs::lemmas::List::drop_all))]
fn after_modules(shapes: &[Shape], modules: usize) -> &[Shape]
    ensures { result.now ≡ drop modules shapes.now }
{
    if modules < shapes.len() {
        &shapes[modules..]
    } else {
        &[]
    }
}

/// Puts the macros of kinds and of used black boxes at the end of `out`, with nothing in them.
#[tactic(auto, using(crate::proofs::Written::macros_both))]
fn add_others(
    alloc: Global,
    out: &mut Bytes,
    modules: &[Module],
    shapes: &[Shape],
) -> Result<(), NoMemory>
    ensures { OnOk result (out.new ≡ out.old
        ++ macros_text (map empty_macro (drop (length modules.now) shapes.now)
        ++ boxes_written modules.now modules.now shapes.now)) }
{
    let types = Types::of(alloc, modules)?;
    add_kinds(alloc, out, after_modules(shapes, modules.len()))?;
    add_boxes(alloc, out, &types, modules, shapes)
}

/// Puts the macros of all kinds of cells that no module is, and of all black boxes that are used,
/// at the end of `out`, with nothing in them.
pub(crate) fn add_cells(alloc: Global, out: &mut Bytes, modules: &[Module]) -> Result<(), NoMemory>
    ensures { OnOk result (out.new ≡ out.old ++ macros_text (cell_macros modules.now)) }
{
    let library = library_of(alloc, modules)?;
    add_others(alloc, out, modules, library.shapes.as_slice())
}
