//! What is fixed for each kind.

use crate::form::Form;
use std::marker::Model;

/// All that is fixed for a kind. Contracts see it as the row of `specs/Kinds`.
#[derive(Drop)]
pub struct Row {
    name: &'static [u8],
    form: Form,
    inputs: (u16, u16),
    closes: Option<bool>,
}

impl Model for Row {
    ghost use Rattle.element_kinds.specs.Kinds.{KindRow, row};

    ghost Value = { KindRow };

    ghost view = { λ r. row r.name.now r.form r.inputs r.closes };
}

impl Row {
    ghost use Rattle.std.specs.Prelude.{◌≡◌};
    ghost use Rattle.element_kinds.specs.Kinds.{row};

    pub(crate) fn new(
        name: &'static [u8],
        form: Form,
        inputs: (u16, u16),
        closes: Option<bool>,
    ) -> Row
        ensures { result ≡ row name.now form inputs closes }
    {
        Row {
            name,
            form,
            inputs,
            closes,
        }
    }

    /// The word in a drawing.
    pub fn name(&self) -> &'static [u8]
        ensures { result.now ≡ self.now.name }
    {
        self.name
    }

    /// How the output comes from the pins.
    pub fn form(&self) -> Form
        ensures { result ≡ self.now.form }
    {
        self.form
    }

    /// The fewest and the most input connections of a use.
    pub fn inputs(&self) -> (u16, u16)
        ensures { result ≡ self.now.inputs }
    {
        self.inputs
    }

    /// The bit at which a pin settles the output whatever the others show, if one pin may be
    /// marked `!H`; no pin may be marked if there is none.
    pub fn closes(&self) -> Option<bool>
        ensures { result ≡ self.now.closes }
    {
        self.closes
    }
}
