//! What stands in a macro.

ghost use Rattle.std.specs.Prelude.{◌≡◌, ◌-◌, ◌^◌, ◌<◌, ◌++◌, ◌==◌, [], IfOk, OnOk, codes, length, map, not, option_map, slice_get};
ghost use Rattle.drawing_tree.specs.Canonical.{bracketed_if_some, connection_text, inputs_text, macro_lines, outputs_text, statements_lines};
ghost use Rattle.netlist_import.specs.Body as spec;
ghost use Rattle.netlist_import.specs.Fresh.{names_after};
ghost use Rattle.netlist_import.specs.Nets.{numbered_from, own_nets};
ghost use Rattle.netlist_import.specs.declared.netlist.Direction.TheVariants.{Input, Output};

use crate::head::add_head;
use crate::kinds::{Targets, is_same_way};
use crate::names::Names;
use crate::netlist::{Cell, Direction, Module};
use crate::nets::{Nets, Wires};
use crate::outlets::{add_buffers, outlets_of};
use crate::shapes::{Formal, Shape};
use crate::text::{add_separator, close_outputs};
use crate::wiring::Wiring;
use crate::words::{counted, word_of};
use scald_base::{Bytes, NoMemory};
use std::alloc::Global;

/// What stands for the bits of a cell at a port of its macro.
fn wires_at(alloc: Global, nets: &mut Nets, cell: &Wiring, port: &Formal) -> Result<Wires, NoMemory>
    ensures { IfOk result (λ wires. (wires, nets.new) ≡ spec.wires_at cell.now port.now nets.old) }
{
    match cell.bits_at(port.name.as_slice()) {
        Some(bits) => nets.wires(alloc, bits),
        None => nets.left_out(alloc, port.width),
    }
}

/// Puts the connection of a cell to a port at the end of `out`.
fn add_port(
    alloc: Global,
    out: &mut Bytes,
    nets: &mut Nets,
    cell: &Wiring,
    port: &Formal,
) -> Result<(), NoMemory>
    ensures text { OnOk result (out.new ≡ out.old
        ++ connection_text (spec.connection_of nets.new.list
        (spec.wires_at cell.now port.now nets.old).0)) }
    ensures nets { OnOk result (nets.new ≡ (spec.wires_at cell.now port.now nets.old).1) }
{
    let wires = wires_at(alloc, nets, cell, port)?;
    nets.add_connection(out, wires.as_slice())
}

/// Puts the connections of a cell to the ports of one direction at the end of `out`, the first one
/// after `before`; says whether there are some.
#[tactic(auto, unfolding(crate::specs::Body::connected))]
fn add_ports(
    alloc: Global,
    out: &mut Bytes,
    nets: &mut Nets,
    cell: &Wiring,
    ports: &[Formal],
    direction: Direction,
    before: &[u8],
) -> Result<bool, NoMemory>
    ensures some { IfOk result (λ some. some
        ≡ not (length (spec.connected cell.now (spec.of_way direction ports.now)
        nets.old).connections == 0)) }
    ensures text { OnOk result (out.new ≡ out.old ++ bracketed_if_some before.now [] connection_text
        (spec.connected cell.now (spec.of_way direction ports.now) nets.old).connections) }
    ensures nets { OnOk result (nets.new
        ≡ (spec.connected cell.now (spec.of_way direction ports.now) nets.old).nets) }
{
    let mut is_some = false;
    for port in ports {
        if is_same_way(port.direction, direction) {
            add_separator(out, is_some, before)?;
            add_port(alloc, out, nets, cell, port)?;
            is_some = true;
        }
    }
    Ok(is_some)
}

/// What a cell is to be called, after so many that are hidden.
fn wanted_label(alloc: Global, hidden: usize, cell: &Cell) -> Result<Bytes, NoMemory>
    ensures { IfOk result (λ label. label ≡ spec.cell_label hidden cell.now) }
{
    if cell.is_hidden {
        counted(alloc, b"c", hidden)
    } else {
        word_of(alloc, cell.name.as_slice())
    }
}

/// How many cells are hidden after this one.
fn hidden_after(hidden: usize, cell: &Cell) -> usize
    requires { hidden < 2 ^ 64 - 1 }
    ensures { result ≡ spec.hidden_after hidden cell.now }
{
    if cell.is_hidden { hidden + 1 } else { hidden }
}

/// Takes the labels of cells.
#[tactic(auto, unfolding(crate::specs::Fresh::names_after, crate::specs::Body::cell_labels))]
fn take_labels(alloc: Global, labels: &mut Names, cells: &[Cell]) -> Result<(), NoMemory>
    ensures { OnOk result (labels.new
        ≡ labels.old ++ names_after labels.old (spec.cell_labels 0 cells.now)) }
{
    let mut hidden = 0;
    for cell in cells {
        let wanted = wanted_label(alloc, hidden, cell)?;
        labels.take(alloc, wanted)?;
        hidden = hidden_after(hidden, cell);
    }
    Ok(())
}

/// Puts what stands in a use before its connections at the end of `out`.
fn add_use_head(out: &mut Bytes, label: &[u8], kind: &[u8]) -> Result<(), NoMemory>
    ensures { OnOk result (out.new
        ≡ out.old ++ codes "  " ++ label.now ++ codes " : " ++ kind.now) }
{
    out.extend(b"  ")?;
    out.extend(label)?;
    out.extend(b" : ")?;
    out.extend(kind)
}

/// Puts the inputs of a cell in their parentheses at the end of `out`.
fn add_inputs(
    alloc: Global,
    out: &mut Bytes,
    nets: &mut Nets,
    cell: &Wiring,
    ports: &[Formal],
) -> Result<(), NoMemory>
    ensures text { OnOk result (out.new ≡ out.old ++ inputs_text connection_text
        (spec.connected cell.now (spec.of_way Input ports.now) nets.old).connections) }
    ensures nets { OnOk result (nets.new ≡ (spec.connected cell.now (spec.of_way Input ports.now)
        nets.old).nets) }
{
    out.extend(b" (")?;
    add_ports(alloc, out, nets, cell, ports, Direction::Input, b"")?;
    out.push(b')')
}

/// Puts an arrow and the outputs of a cell at the end of `out`, if there are some.
fn add_outputs(
    alloc: Global,
    out: &mut Bytes,
    nets: &mut Nets,
    cell: &Wiring,
    ports: &[Formal],
) -> Result<(), NoMemory>
    ensures text { OnOk result (out.new ≡ out.old ++ outputs_text connection_text
        (spec.connected cell.now (spec.of_way Output ports.now) nets.old).connections) }
    ensures nets { OnOk result (nets.new ≡ (spec.connected cell.now (spec.of_way Output ports.now)
        nets.old).nets) }
{
    let is_some = add_ports(alloc, out, nets, cell, ports, Direction::Output, b" -> (")?;
    close_outputs(out, is_some)
}

/// Puts the use that a cell is at the end of `out`.
#[tactic(auto, unfolding(drawing_tree::specs::Canonical::use_head, drawing_tree::specs::Canonical::use_text, drawing_tree::specs::Canonical::statement_lines, crate::specs::Body::listed))]
fn add_cell(
    alloc: Global,
    out: &mut Bytes,
    nets: &mut Nets,
    cell: &Wiring,
    label: &[u8],
    shape: &Shape,
) -> Result<(), NoMemory>
    ensures text { OnOk result (out.new ≡ out.old ++ statements_lines (codes "  ")
        (spec.listed (spec.cell_use cell.now label.now shape.now nets.old).statements)) }
    ensures nets { OnOk result (nets.new
        ≡ (spec.cell_use cell.now label.now shape.now nets.old).nets) }
{
    add_use_head(out, label, shape.name.as_slice())?;
    add_inputs(alloc, out, nets, cell, shape.ports.as_slice())?;
    add_outputs(alloc, out, nets, cell, shape.ports.as_slice())?;
    out.extend(b";\n")
}

/// Puts the use that a cell is at the end of `out`, if there is a macro that it uses.
#[tactic(auto, unfolding(crate::specs::Body::listed, drawing_tree::specs::Canonical::statements_lines))]
fn add_target(
    alloc: Global,
    out: &mut Bytes,
    nets: &mut Nets,
    cell: &Cell,
    label: &[u8],
    shape: Option<&Shape>,
) -> Result<(), NoMemory>
    ensures text { OnOk result (out.new ≡ out.old ++ statements_lines (codes "  ") (spec.listed
        (spec.cell_written cell.now label.now (option_map (λ s. s.now) shape.entry)
        nets.old).statements)) }
    ensures nets { OnOk result (nets.new
        ≡ (spec.cell_written cell.now label.now (option_map (λ s. s.now) shape.entry)
        nets.old).nets) }
{
    match shape {
        Some(shape) => {
            let cell = Wiring::of(alloc, cell);
            add_cell(alloc, out, nets, &cell, label, shape)
        }
        None => Ok(()),
    }
}

/// Puts the uses that cells are at the end of `out`, each with its label and the macro that it
/// uses.
fn add_cells(
    alloc: Global,
    out: &mut Bytes,
    nets: &mut Nets,
    cells: &[Cell],
    labels: &[Bytes],
    targets: &[usize],
    shapes: &[Shape],
) -> Result<(), NoMemory>
    ensures text { OnOk result (out.new ≡ out.old ++ statements_lines (codes "  ") (spec.listed
        (spec.cells_written cells.now labels.now (map (slice_get shapes.now) targets.now)
        nets.old).statements)) }
    ensures nets { OnOk result (nets.new
        ≡ (spec.cells_written cells.now labels.now (map (slice_get shapes.now) targets.now)
        nets.old).nets) }
{
    for (place, cell) in cells.iter().enumerate() {
        let Some(label) = labels.get(place) else {
            return Ok(());
        };
        let Some(target) = targets.get(place) else {
            return Ok(());
        };
        add_target(
            alloc,
            out,
            nets,
            cell,
            label.as_slice(),
            shapes.get(*target),
        )?;
    }
    Ok(())
}

/// Puts the cells of a module at the end of `out`, and takes their labels.
fn add_cell_part(
    alloc: Global,
    out: &mut Bytes,
    nets: &mut Nets,
    labels: &mut Names,
    module: &Module,
    targets: &[usize],
    shapes: &[Shape],
) -> Result<(), NoMemory>
    requires { labels.old ≡ [] }
    ensures labels { OnOk result (labels.new
        ≡ names_after [] (spec.cell_labels 0 «module».now.cells)) }
    ensures text { OnOk result (out.new ≡ out.old ++ statements_lines (codes "  ")
        (spec.listed (spec.cells_written «module».now.cells
        (names_after [] (spec.cell_labels 0 «module».now.cells))
        (map (slice_get shapes.now) targets.now) nets.old).statements)) }
    ensures nets { OnOk result (nets.new ≡ (spec.cells_written «module».now.cells
        (names_after [] (spec.cell_labels 0 «module».now.cells))
        (map (slice_get shapes.now) targets.now) nets.old).nets) }
{
    let cells = module.cells.as_slice();
    take_labels(alloc, labels, cells)?;
    add_cells(alloc, out, nets, cells, labels.as_slice(), targets, shapes)
}

/// Puts the buffers of a module at the end of `out`.
fn add_buffer_part(
    alloc: Global,
    out: &mut Bytes,
    nets: &Nets,
    labels: &mut Names,
    module: &Module,
) -> Result<(), NoMemory>
    ensures { OnOk result (out.new ≡ out.old ++ statements_lines (codes "  ")
        (spec.listed (spec.buffers nets.now.list (names_after labels.old
        (spec.buffer_labels 0 (spec.all_outlets nets.now (numbered_from 0 «module».now.ports))))
        (spec.all_outlets nets.now (numbered_from 0 «module».now.ports))))) }
{
    let outlets = outlets_of(alloc, nets, module.ports.as_slice())?;
    add_buffers(alloc, out, nets, labels, outlets.as_slice())
}

/// Puts what stands in the macro of a module at the end of `out`: its cells, then its buffers.
fn add_body(
    alloc: Global,
    out: &mut Bytes,
    nets: &mut Nets,
    module: &Module,
    targets: &Targets,
    shapes: &[Shape],
) -> Result<(), NoMemory>
    requires { nets.old ≡ own_nets «module».now }
    ensures { OnOk result (out.new ≡ out.old ++ statements_lines (codes "  ")
        (spec.body «module».now (map (slice_get shapes.now) targets.now))) }
{
    let mut labels = Names::new(alloc);
    add_cell_part(
        alloc,
        out,
        nets,
        &mut labels,
        module,
        targets.as_slice(),
        shapes,
    )?;
    add_buffer_part(alloc, out, nets, &mut labels, module)
}

/// Puts the macro of a module that has these nets at the end of `out`.
#[tactic(auto, unfolding(drawing_tree::specs::Canonical::macro_lines, drawing_tree::specs::Canonical::body_lines, drawing_tree::specs::Canonical::macro_head))]
fn add_macro(
    alloc: Global,
    out: &mut Bytes,
    nets: &mut Nets,
    module: &Module,
    shape: &Shape,
    targets: &Targets,
    shapes: &[Shape],
) -> Result<(), NoMemory>
    requires { nets.old ≡ own_nets «module».now }
    ensures { OnOk result (out.new ≡ out.old
        ++ macro_lines (spec.macro_of shape.now «module».now
        (map (slice_get shapes.now) targets.now))) }
{
    add_head(
        out,
        shape.name.as_slice(),
        shape.ports.as_slice(),
        nets.taken_names(),
    )?;
    add_body(alloc, out, nets, module, targets, shapes)?;
    out.extend(b"END;\n")
}

/// Puts the macro of a module at the end of `out`.
pub(crate) fn add_module(
    alloc: Global,
    out: &mut Bytes,
    module: &Module,
    shape: &Shape,
    targets: &Targets,
    shapes: &[Shape],
) -> Result<(), NoMemory>
    ensures { OnOk result (out.new ≡ out.old
        ++ macro_lines (spec.macro_of shape.now «module».now
        (map (slice_get shapes.now) targets.now))) }
{
    let mut nets = Nets::of(alloc, module)?;
    add_macro(alloc, out, &mut nets, module, shape, targets, shapes)
}
