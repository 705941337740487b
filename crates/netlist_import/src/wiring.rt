//! A cell whose connections are found by their names.

ghost use Rattle.std.specs.Prelude.{◌≡◌, option_map};
ghost use Rattle.netlist_import.specs.Body.{bits_at};

use crate::index::Index;
use crate::netlist::{Bit, Cell, Port};
use std::alloc::Global;
use std::marker::Model;

/// A cell, with what finds its connections.
#[derive(Drop)]
pub(crate) struct Wiring<'c> {
    cell: &'c Cell,
    connections: Index<'c, Port>,
}

impl<'c> Model for Wiring<'c> {
    ghost use Rattle.std.specs.Prelude.{◌≡◌};
    ghost use Rattle.netlist_import.specs.declared.netlist.Cell.{Cell as Read};

    ghost Value = { Read };

    ghost view = { λ w. w.cell.now };

    ghost invariant = { λ w. w.connections ≡ w.cell.now.connections };
}

impl<'c> Wiring<'c> {
    pub(crate) fn of(alloc: Global, cell: &'c Cell) -> Wiring<'c>
        ensures { result ≡ cell.now }
    {
        Wiring {
            cell,
            connections: Index::of(alloc, cell.connections.as_slice()),
        }
    }

    /// The bits that the cell has at a port, if it has some.
    pub(crate) fn bits_at(&self, name: &[u8]) -> Option<&'c [Bit]>
        ensures { option_map (λ bits. bits.now) result ≡ bits_at self.now name.now }
    {
        match self.connections.find(name) {
            Some(connection) if !connection.bits.is_empty() => Some(connection.bits.as_slice()),
            _ => None,
        }
    }
}
