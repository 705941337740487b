//! The places of what a macro's head declares.

use drawing_tree::Places;

/// Where a macro's head names its parameters, its inputs and its outputs.
#[derive(Drop, PartialEq, Eq, Debug)]
pub struct Head {
    pub parameters: Places,
    pub ins: Places,
    pub outs: Places,
}
