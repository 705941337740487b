//! How the output of a kind comes from its pins, or what a checker checks.

/// What a checker checks, by its two limits.
#[derive(Clone, Copy, PartialEq, Eq, Debug)]
pub enum Check {
    /// `SETUP` and `HOLD` about each rise of a clock.
    SetupHold,
    /// `SETUP` before the rise and `HOLD` after the fall of a clock, and all between.
    RiseFall,
    /// `HIGH` and `LOW`, the least widths of pulses.
    MinPulse,
}

impl Check {
    ghost use Rattle.std.specs.Prelude.{◌≡◌};
    ghost use Rattle.element_kinds.specs.Kinds.{is_at_edges, is_of_widths};

    /// Whether it holds an input against the edges of a clock.
    pub fn is_at_edges(self) -> bool
        ensures { result ≡ is_at_edges self }
    {
        matches!(self, Check::SetupHold | Check::RiseFall)
    }

    /// Whether it measures pulses.
    pub fn is_of_widths(self) -> bool
        ensures { result ≡ is_of_widths self }
    {
        matches!(self, Check::MinPulse)
    }
}

/// How the output of a kind comes from its pins.
#[derive(Clone, Copy, PartialEq, Eq, Debug)]
pub enum Form {
    /// A function of the bits that all pins show.
    Gate,
    /// May change after any of its pins did, each time by another delay.
    Change,
    /// Takes its input, pin 1, when its clock, pin 0, rises; and, if this says so, is set by
    /// pin 2 and reset by pin 3.
    Register(bool),
    /// Passes its input, pin 1, on while pin 0 enables it; and, if this says so, is set by pin 2
    /// and reset by pin 3.
    Latch(bool),
    /// No output.
    Checker(Check),
}

impl Form {
    ghost use Rattle.std.specs.Prelude.{◌≡◌};
    ghost use Rattle.element_kinds.specs.Kinds.{check_in, is_function, is_memoryless, is_of_points, is_of_pulses, keeps_bit, listens_in, makes_output, may_vary};

    /// Whether there is an output.
    pub fn makes_output(self) -> bool
        ensures { result ≡ makes_output self }
    {
        !matches!(self, Form::Checker(_))
    }

    /// Whether the output changes with the pin at this place, from 0.
    pub fn listens_in(self, place: usize) -> bool
        ensures { result ≡ listens_in self place }
    {
        match self {
            Form::Register(_) => place != 1,
            _ => true,
        }
    }

    /// Whether it is a function of the bits that all pins show.
    pub fn is_function(self) -> bool
        ensures { result ≡ is_function self }
    {
        matches!(self, Form::Gate)
    }

    /// Whether changes may come from each pin by another delay.
    pub fn may_vary(self) -> bool
        ensures { result ≡ may_vary self }
    {
        matches!(self, Form::Change)
    }

    /// Whether the output comes from what the pins do alone: of gates and change functions.
    pub fn is_memoryless(self) -> bool
        ensures { result ≡ is_memoryless self }
    {
        matches!(self, Form::Gate | Form::Change)
    }

    /// Whether a bit is kept.
    pub fn keeps_bit(self) -> bool
        ensures { result ≡ keeps_bit self }
    {
        matches!(self, Form::Register(_) | Form::Latch(_))
    }

    /// Whether an input is held against the edges of a clock.
    pub fn is_of_points(self) -> bool
        ensures { result ≡ is_of_points self }
    {
        match self {
            Form::Checker(check) => check.is_at_edges(),
            _ => false,
        }
    }

    /// Whether pulses are measured.
    pub fn is_of_pulses(self) -> bool
        ensures { result ≡ is_of_pulses self }
    {
        match self {
            Form::Checker(check) => check.is_of_widths(),
            _ => false,
        }
    }

    /// What is checked, of a checker.
    pub fn check_in(self) -> Option<Check>
        ensures { result ≡ check_in self }
    {
        match self {
            Form::Checker(check) => Some(check),
            _ => None,
        }
    }
}
