//! The modules of a netlist.

use crate::index::Named;
use scald_base::{Bytes, List};

/// Which way a port leads.
#[derive(Clone, Copy)]
pub enum Direction {
    Input,
    Output,
}

/// A bit of a port, a connection or a net.
#[derive(Clone, Copy)]
pub enum Bit {
    /// The bit with this number in its module.
    Number(u32),
    Zero,
    One,
    /// `"x"` or `"z"`: nothing drives it.
    Undriven,
}

/// The bits of a vector, the bit of index 0 first.
pub type Bits = List<Bit>;

/// A port of a module, or a connection of a cell.
#[derive(Drop)]
pub struct Port {
    pub name: Bytes,
    pub direction: Direction,
    pub bits: Bits,
}

/// The ports of a module, or the connections of a cell, in their order.
pub type Ports = List<Port>;

impl Named for Port {
    ghost name = { λ p. p.name };

    fn name(&self) -> &[u8] {
        self.name.as_slice()
    }
}

/// A cell of a module.
#[derive(Drop)]
pub struct Cell {
    pub name: Bytes,
    pub is_hidden: bool,
    /// The name of its type.
    pub kind: Bytes,
    /// The text of its parameters: those of two cells are the same exactly if their texts are.
    pub parameters: Bytes,
    pub connections: Ports,
}

/// The cells of a module, in their order.
pub type Cells = List<Cell>;

/// Bits of a module under a name.
#[derive(Drop)]
pub struct NetName {
    pub name: Bytes,
    pub is_hidden: bool,
    pub bits: Bits,
}

/// The names of bits of a module, in their order.
pub type NetNames = List<NetName>;

/// A module.
#[derive(Drop)]
pub struct Module {
    pub name: Bytes,
    /// Of a black box only the ports are read.
    pub is_black_box: bool,
    pub ports: Ports,
    pub cells: Cells,
    pub nets: NetNames,
}

/// The modules of a netlist, in the order of the text.
pub type Netlist = List<Module>;
