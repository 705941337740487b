//! The circuit as far as it is expanded.

use flat_circuit::Builder;

/// The statements that were reached so far, and the circuit that they make.
#[derive(Drop)]
pub struct Expansion {
    pub(crate) statements: u32,
    pub(crate) builder: Builder,
}
