//! Clauses of a few forms.

ghost use Rattle.std.specs.Prelude.{◌≡◌, OnOk};
ghost use Rattle.run_clauses.specs.Forms.{not_said};
ghost use Rattle.run_clauses.specs.Meaning.{Adds, AreSame, IsOther};

use crate::fact::{Fact, Said};
use crate::formula::Formula;
use scald_base::NoMemory;

impl Said {
    /// That it is not so.
    pub fn negated(self) -> Said
        ensures { result ≡ not_said self }
    {
        Said {
            fact: self.fact,
            holds: !self.holds,
        }
    }
}

/// Begins a clause, in place of what is there.
pub fn begin(some: &mut Vec<Said>, first: &[Said]) -> Result<(), NoMemory>
    ensures { OnOk result (some.new.items ≡ first.now) }
{
    some.clear();
    some.extend_from_slice(first)?;
    Ok(())
}

/// Unless one of two things is so, two others are the same.
pub fn push_same(
    formula: &mut Formula,
    unless: (Said, Said),
    a: Said,
    b: Said,
) -> Result<(), NoMemory>
    ensures { OnOk result (Adds (AreSame unless.0 unless.1 a b) formula.old formula.new) }
{
    formula.push(&[unless.0, unless.1, a.negated(), b])?;
    formula.push(&[unless.0, unless.1, a, b.negated()])
}

/// A fact holds exactly if one of two others does, and not both.
pub fn push_other(formula: &mut Formula, fact: Fact, one: Fact, two: Fact) -> Result<(), NoMemory>
    ensures { OnOk result (Adds (IsOther fact one two) formula.old formula.new) }
{
    formula.push(&[fact.is_not(), one.is(), two.is()])?;
    formula.push(&[fact.is_not(), one.is_not(), two.is_not()])?;
    formula.push(&[fact.is(), one.is(), two.is_not()])?;
    formula.push(&[fact.is(), one.is_not(), two.is()])
}
