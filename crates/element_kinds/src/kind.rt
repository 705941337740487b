//! The kinds of elements and checkers, and what each one is by its row.

use crate::form::{Check, Form};
use crate::row::Row;

/// What an element or a checker is. The last three are checkers, which have no output.
#[derive(Clone, Copy, PartialEq, Eq, Debug)]
pub enum Kind {
    /// `BUF`: one pin, passed on.
    Buf,
    /// `AND` of 1 to 16 pins.
    And,
    /// `OR` of 1 to 16 pins.
    Or,
    /// `XOR`: the parity of 1 to 16 pins.
    Xor,
    /// `MUX2`: a select, then two inputs.
    Mux2,
    /// `MUX4`: two selects, the most significant first, then four inputs.
    Mux4,
    /// `MUX8`: three selects, the most significant first, then eight inputs.
    Mux8,
    /// `CHG`: may change after any of its pins did.
    Chg,
    /// `REG`: a clock and an input.
    Reg,
    /// `REG_RS`: a clock, an input, a set and a reset.
    RegRs,
    /// `LATCH`: an enable and an input.
    Latch,
    /// `LATCH_RS`: an enable, an input, a set and a reset.
    LatchRs,
    /// `SETUP_HOLD_CHK`: a clock and an input.
    SetupHold,
    /// `SETUP_RISE_HOLD_FALL_CHK`: a clock and an input.
    RiseFall,
    /// `MIN_PULSE_CHK`: one pin.
    MinPulse,
}

/// All kinds, in the order in which the rows stand.
pub const KINDS: [Kind; 15] = [
    Kind::Buf,
    Kind::And,
    Kind::Or,
    Kind::Xor,
    Kind::Mux2,
    Kind::Mux4,
    Kind::Mux8,
    Kind::Chg,
    Kind::Reg,
    Kind::RegRs,
    Kind::Latch,
    Kind::LatchRs,
    Kind::SetupHold,
    Kind::RiseFall,
    Kind::MinPulse,
];

impl Kind {
    ghost use Rattle.std.specs.Prelude.{◌≡◌};
    ghost use Rattle.element_kinds.specs.Kinds.{check_of, checks_points, checks_pulses, closes_of, form_of, has_output, inputs_of, is_change, listens, may_be_marked, may_split, name_of, row_of, selects_of};

    /// The kind's row.
    pub fn row(self) -> Row
        ensures { result ≡ row_of self }
    {
        match self {
            Kind::Buf => Row::new(b"BUF", Form::Gate, (1, 1), None),
            Kind::And => Row::new(b"AND", Form::Gate, (1, 16), Some(false)),
            Kind::Or => Row::new(b"OR", Form::Gate, (1, 16), Some(true)),
            Kind::Xor => Row::new(b"XOR", Form::Gate, (1, 16), None),
            Kind::Mux2 => Row::new(b"MUX2", Form::Gate, (3, 3), None),
            Kind::Mux4 => Row::new(b"MUX4", Form::Gate, (6, 6), None),
            Kind::Mux8 => Row::new(b"MUX8", Form::Gate, (11, 11), None),
            Kind::Chg => Row::new(b"CHG", Form::Change, (1, 16), None),
            Kind::Reg => Row::new(b"REG", Form::Register(false), (2, 2), None),
            Kind::RegRs => Row::new(b"REG_RS", Form::Register(true), (4, 4), None),
            Kind::Latch => Row::new(b"LATCH", Form::Latch(false), (2, 2), None),
            Kind::LatchRs => Row::new(b"LATCH_RS", Form::Latch(true), (4, 4), None),
            Kind::SetupHold => Row::new(
                b"SETUP_HOLD_CHK",
                Form::Checker(Check::SetupHold),
                (2, 2),
                None,
            ),
            Kind::RiseFall => Row::new(
                b"SETUP_RISE_HOLD_FALL_CHK",
                Form::Checker(Check::RiseFall),
                (2, 2),
                None,
            ),
            Kind::MinPulse => Row::new(
                b"MIN_PULSE_CHK",
                Form::Checker(Check::MinPulse),
                (1, 1),
                None,
            ),
        }
    }

    /// Its word in a drawing.
    pub fn name(self) -> &'static [u8]
        ensures { result.now ≡ name_of self }
    {
        self.row().name()
    }

    /// How its output comes from its pins.
    pub fn form(self) -> Form
        ensures { result ≡ form_of self }
    {
        self.row().form()
    }

    /// The fewest and the most input connections of a use.
    pub fn inputs(self) -> (u16, u16)
        ensures { result ≡ inputs_of self }
    {
        self.row().inputs()
    }

    /// The bit at which a pin settles the output whatever the others show.
    pub fn closes(self) -> Option<bool>
        ensures { result ≡ closes_of self }
    {
        self.row().closes()
    }

    /// Whether one of its pins may be marked `!H`.
    pub fn may_be_marked(self) -> bool
        ensures { result ≡ may_be_marked self }
    {
        self.closes().is_some()
    }

    /// Whether it has an output: it is no checker.
    pub fn has_output(self) -> bool
        ensures { result ≡ has_output self }
    {
        self.form().makes_output()
    }

    /// Whether it may have a rise delay and a fall delay.
    pub fn may_split(self) -> bool
        ensures { result ≡ may_split self }
    {
        self.form().is_function()
    }

    /// Whether its output changes with the pin at this place, from 0: a register's input counts
    /// only when its clock rises.
    pub fn listens(self, place: usize) -> bool
        ensures { result ≡ listens self place }
    {
        self.form().listens_in(place)
    }

    /// How many of its input connections, from the first on, select among those that follow.
    pub fn selects(self) -> usize
        ensures { result ≡ selects_of self }
    {
        match self {
            Kind::Mux2 => 1,
            Kind::Mux4 => 2,
            Kind::Mux8 => 3,
            _ => 0,
        }
    }

    /// Whether it may change after any of its pins did.
    pub fn is_change(self) -> bool
        ensures { result ≡ is_change self }
    {
        self.form().may_vary()
    }

    /// What it checks, if it is a checker.
    pub fn check(self) -> Option<Check>
        ensures { result ≡ check_of self }
    {
        self.form().check_in()
    }

    /// Whether it holds an input against the edges of a clock.
    pub fn checks_points(self) -> bool
        ensures { result ≡ checks_points self }
    {
        self.form().is_of_points()
    }

    /// Whether it measures pulses.
    pub fn checks_pulses(self) -> bool
        ensures { result ≡ checks_pulses self }
    {
        self.form().is_of_pulses()
    }
}
