//! Literals.

ghost use Rattle.std.specs.Prelude.{◌≡◌, not};

/// A literal, which holds where its variable has this bit.
#[derive(Clone, Copy, PartialEq, Eq, Debug)]
pub struct Literal {
    /// The variable's number. Tables are as long as the greatest, so number variables from 0 on.
    pub variable: u32,
    /// The bit of its variable that makes it hold.
    pub value: bool,
}

impl Literal {
    /// The literal that holds where this one does not.
    pub fn negated(self) -> Literal
        ensures { result ≡ record { variable = self.variable; value = not self.value } }
    {
        Literal {
            variable: self.variable,
            value: !self.value,
        }
    }
}
