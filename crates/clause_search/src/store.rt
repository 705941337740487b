//! The clauses, each in the lists of its first two literals, which it watches.

use crate::trail::Trail;
use clause_check::Literal;
use scald_base::NoMemory;
use std::alloc::Global;

/// A clause of the store.
#[derive(Clone, Copy)]
pub(crate) struct Stored {
    start: usize,
    end: usize,
    /// Its number, as hints name it.
    pub(crate) number: usize,
    /// Of a lemma on how many levels its literals were, when it was learnt; 0 of a clause that was
    /// given.
    pub(crate) levels: usize,
    /// The next clause in the list of the first literal.
    after_first: Option<usize>,
    /// The next clause in the list of the second.
    after_second: Option<usize>,
}

#[derive(Drop)]
pub(crate) struct Store {
    literals: Vec<Literal>,
    pub(crate) clauses: Vec<Stored>,
    /// The first clause in each literal's list.
    heads: Vec<Option<usize>>,
}

/// Where a literal's list begins: 0 and 1 for those of variable 0, and so on.
fn index_of(literal: Literal) -> usize {
    let index = 2 * (literal.variable as usize);
    if literal.value { index + 1 } else { index }
}

impl Store {
    pub(crate) fn new(alloc: Global) -> Store {
        Store {
            literals: Vec::new(alloc),
            clauses: Vec::new(alloc),
            heads: Vec::new(alloc),
        }
    }

    /// Makes room for the lists of one variable more.
    pub(crate) fn add_variable(&mut self) -> Result<(), NoMemory> {
        self.heads.push(None)?;
        self.heads.push(None)?;
        Ok(())
    }

    /// Appends a clause of at least two literals, and gives its place.
    pub(crate) fn add(
        &mut self,
        literals: &[Literal],
        number: usize,
        levels: usize,
    ) -> Result<usize, NoMemory> {
        let start = self.literals.len();
        self.literals.extend_from_slice(literals)?;
        let place = self.clauses.len();
        let clause = Stored {
            start,
            end: self.literals.len(),
            number,
            levels,
            after_first: None,
            after_second: None,
        };
        self.clauses.push(clause)?;
        self.watch_both(place);
        Ok(place)
    }

    /// The literals of the clause at a place.
    pub(crate) fn literals_of(&self, place: usize) -> &[Literal] {
        match self.clauses.get(place) {
            Some(clause) => match self.literals.get(clause.start..clause.end) {
                Some(literals) => literals,
                None => &[],
            },
            None => &[],
        }
    }

    /// The number of the clause at a place, as hints name it.
    pub(crate) fn number_of(&self, place: usize) -> usize {
        match self.clauses.get(place) {
            Some(clause) => clause.number,
            None => 0,
        }
    }

    /// Empties the list of a literal, and gives the first clause that was there.
    pub(crate) fn take_list(&mut self, literal: Literal) -> Option<usize> {
        let head = self.heads.get_mut(index_of(literal))?;
        let first = *head;
        *head = None;
        first
    }

    /// Puts a watched literal second, and gives the first literal and the next clause of the list
    /// of the second.
    pub(crate) fn put_second(
        &mut self,
        place: usize,
        literal: Literal,
    ) -> Option<(Literal, Option<usize>)> {
        let clause = self.clauses.get_mut(place)?;
        let start = clause.start;
        let second = start.saturating_add(1);
        if second >= self.literals.len() {
            return None;
        }
        if self.literals[start] == literal {
            self.literals.swap(start, second);
            let after = clause.after_first;
            clause.after_first = clause.after_second;
            clause.after_second = after;
        }
        Some((self.literals[start], clause.after_second))
    }

    /// Puts a literal second that is not false, in place of one that is, if the clause has a third.
    pub(crate) fn replace_second(&mut self, place: usize, trail: &Trail) -> Option<Literal> {
        let clause = *self.clauses.get(place)?;
        let second = clause.start.saturating_add(1);
        for i in second.saturating_add(1)..clause.end {
            let literal = *self.literals.get(i)?;
            if trail.value(literal) != Some(false) {
                if second < self.literals.len() {
                    self.literals.swap(second, i);
                }
                return Some(literal);
            }
        }
        None
    }

    /// Puts a clause into the list of its second literal, which is this.
    pub(crate) fn watch_second(&mut self, place: usize, literal: Literal) {
        let Some(head) = self.heads.get_mut(index_of(literal)) else {
            return;
        };
        if let Some(clause) = self.clauses.get_mut(place) {
            clause.after_second = *head;
            *head = Some(place);
        }
    }

    /// Puts a clause into the list of its first literal, which is this.
    fn watch_first(&mut self, place: usize, literal: Literal) {
        let Some(head) = self.heads.get_mut(index_of(literal)) else {
            return;
        };
        if let Some(clause) = self.clauses.get_mut(place) {
            clause.after_first = *head;
            *head = Some(place);
        }
    }

    /// Puts a clause into the lists of its first two literals.
    fn watch_both(&mut self, place: usize) {
        if let [first, second, ..] = self.literals_of(place) {
            let (first, second) = (*first, *second);
            self.watch_first(place, first);
            self.watch_second(place, second);
        }
    }

    /// Removes the clauses whose mark is not set. Places change.
    pub(crate) fn keep(&mut self, marks: &[bool]) {
        let mut end = 0;
        let mut places = 0;
        for i in 0..self.clauses.len() {
            if !matches!(marks.get(i), Some(true)) {
                continue;
            }
            let Some(mut clause) = self.clauses.get(i).copied() else {
                continue;
            };
            let start = end;
            for from in clause.start..clause.end {
                let Some(literal) = self.literals.get(from).copied() else {
                    break;
                };
                if let Some(to) = self.literals.get_mut(end) {
                    *to = literal;
                }
                end = end.saturating_add(1);
            }
            clause.start = start;
            clause.end = end;
            if let Some(to) = self.clauses.get_mut(places) {
                *to = clause;
            }
            places = places.saturating_add(1);
        }
        self.literals.truncate(end);
        self.clauses.truncate(places);
        self.watch_all();
    }

    /// Makes all lists anew.
    fn watch_all(&mut self) {
        for head in self.heads.iter_mut() {
            *head = None;
        }
        for place in 0..self.clauses.len() {
            self.watch_both(place);
        }
    }
}
