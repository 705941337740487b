//! Why short runs are enough: a break anywhere is one within some periods of the printed tick.
//!
//! [`laws`] states it: what no run in a window breaks (`specs/Window`), no run breaks. `specs/Laws`
//! has the reason in words.
#![tactic(auto)]

pub mod laws;
