//! Lists of lists, kept as one list with the ends of each.

ghost use Rattle.std.specs.Prelude.{◌≡◌, ◌<◌, ◌≤◌, [], ◌∷◌, ◌++◌, length, slice_get, All, MatchOption, OnOk, OnErr};

use crate::literal::Literal;
use scald_base::NoMemory;
use std::alloc::Global;
use std::marker::Model;

/// Where a row begins, and where it ends, among the items of all rows.
#[derive(Clone, Copy)]
struct Span {
    start: usize,
    end: usize,
}

/// A list of rows, which grows at its end. Contracts see it as the list of its rows.
#[derive(Drop)]
pub struct Rows<T> {
    items: Vec<T>,
    spans: Vec<Span>,
}

/// Clauses, each the list of its literals.
pub type Clauses = Rows<Literal>;

/// The hints of each step: the numbers of clauses.
pub type Hints = Rows<usize>;

impl<T> Model for Rows<T> {
    ghost use Rattle.std.specs.Prelude.{List, length, map};
    ghost use Rattle.std.specs.List.{All};
    ghost use Rattle.clause_check.specs.Rows.{row_at, EndsWithin};

    ghost Value = { List (List T) };

    ghost view = { λ r. map (row_at r.items.items) r.spans.items };

    ghost invariant = { λ r. All (EndsWithin (length r.items.items)) r.spans.items };
}

impl<T: Copy + Drop> Rows<T> {
    /// No rows. It needs no allocation yet.
    pub fn new(alloc: Global) -> Rows<T>
        ensures { result ≡ [] }
    {
        Rows {
            items: Vec::new(alloc),
            spans: Vec::new(alloc),
        }
    }

    /// How many rows there are.
    pub fn len(&self) -> usize
        ensures { result ≡ length self.now }
    {
        self.spans.len()
    }

    /// The row of this number, from 0, or `None` exactly past the end.
    pub fn get(&self, number: usize) -> Option<&[T]>
        ensures { MatchOption result (length self.now ≤ number)
            (λ row. slice_get self.now number ≡ Some row.now) }
    {
        let span = self.spans.get(number)?;
        Some(&self.items[span.start..span.end])
    }

    /// Appends a row. If memory runs out the rows are as before.
    #[tactic(auto, using(crate::proofs::Spans::pushed))]
    pub fn push(&mut self, row: &[T]) -> Result<(), NoMemory>
        ensures ok { OnOk result (self.new ≡ self.old ++ row.now ∷ []) }
        ensures err { OnErr result (self.new ≡ self.old) }
    {
        self.spans.reserve(1)?;
        let start = self.items.len();
        self.items.extend_from_slice(row)?;
        let end = self.items.len();
        self.spans.push(Span { start, end })?;
        Ok(())
    }
}

impl Rows<Literal> {
    /// One more than the greatest number of a variable, or 0 if no clause has a literal.
    #[tactic(auto, using(crate::proofs::Spans::rows_all))]
    pub fn variables(&self) -> usize
        ensures { All (λ clause. All (λ l. l.variable < result) clause) self.now }
    {
        variables_of(&self.items)
    }
}

/// A number above each of the variables, and no greater than it has to be.
fn variables_of(literals: &[Literal]) -> usize
    ensures { All (λ l. l.variable < result) literals.now }
{
    let mut variables = 0;
    for literal in literals {
        variables = variables.max(literal.variable as usize + 1);
    }
    variables
}
