//! What a drawing declares.

/// What a name is declared as.
#[derive(Clone, Copy, PartialEq, Eq, Hash, Debug)]
pub enum Kind {
    Constant,
    Macro,
    Parameter,
    Formal,
    Label,
}
