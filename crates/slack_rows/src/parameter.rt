//! What has a slack: the limits of checkers, of marked instances and of asserted nets.

ghost use Rattle.std.specs.Prelude.{◌≡◌};
ghost use Rattle.slack_rows.specs.Views.{corner_of, is_of_width};

use critical_paths::Corner;

/// What has limits.
#[derive(Clone, Copy, PartialEq, Eq)]
pub enum Subject {
    /// A checker or a marked instance, by its number.
    Instance(u32),
    /// A driven net whose name asserts something, by its number.
    Net(u32),
}

/// Which limit it is.
#[derive(Clone, Copy)]
pub enum Word {
    Setup,
    Hold,
    High,
    Low,
    /// A mark that is never at rest.
    Gate,
    /// The pins beside a mark, before it lets through.
    Before,
    /// The same after it does.
    After,
    /// An assertion that permits no change, or not the level.
    Assert,
    /// A net from the tick on at which its assertion has it stable.
    From,
    /// The same up to the last such tick.
    To,
}

impl Word {
    /// Which end of the data's changes counts: the last, if they are to come before something.
    pub fn corner(self) -> Corner
        ensures { result ≡ corner_of self }
    {
        match self {
            Word::Setup | Word::Before | Word::From => Corner::Late,
            Word::Hold | Word::High | Word::Low | Word::Gate => Corner::Early,
            Word::After | Word::Assert | Word::To => Corner::Early,
        }
    }

    /// Whether it is a width.
    pub fn is_width(self) -> bool
        ensures { result ≡ is_of_width self }
    {
        matches!(self, Word::High | Word::Low)
    }
}

/// A limit, in ticks if it has a number.
#[derive(Clone, Copy)]
pub struct Parameter {
    pub subject: Subject,
    pub word: Word,
    pub limit: u16,
}
