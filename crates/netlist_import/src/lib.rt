//! The import of netlists as a program: a JSON text that yosys writes in, macros of this language
//! out.
//!
//! The program calls [`import_main`]. `specs/Answer` says what is answered to words and a text.
//! What is read of the text: `specs/Parsed` says which value its tokens are, `specs/Netlist` which
//! modules a value has, `specs/Fault` what is wrong in it, and `specs/Read` puts these together.
//! What is written: `specs/Design` says which macros the modules become, by `specs/Words` (how
//! names are spelled), `specs/Fresh` (no two in one place are the same), `specs/Kinds` (which cells
//! are of one kind), `specs/Nets` (which net and index each bit has) and `specs/Body` (what stands
//! in a macro).
#![tactic(auto)]

// from bytes to a value
mod offset;
mod parser;
mod spelled;
mod value;

// from a value to a netlist
mod bits;
mod index;
mod module;
mod netlist;

// what is wrong
mod cell_faults;
mod fault;
mod faults;
mod port_faults;
mod read;
mod types;

// names
mod names;
mod words;

// what is used
mod kind_ports;
mod kinds;
mod shapes;

// what is written
mod body;
mod head;
mod library;
mod nets;
mod outlets;
mod text;
mod wiring;

// what holds of it
mod laws;

// the call
mod answer;
mod forms;
mod outcome;
mod program;
mod tool;

pub use fault::FaultKind;
pub use forms::Command;
pub use laws::{
    bits_are_told_apart, cells_declare_words, macros_are_named, modules_declare_once,
    modules_declare_words, names_tell_bits_apart,
};
pub use outcome::{ImportOutcome, import_status};
pub use read::NetlistRefusal;
pub use tool::import_main;
