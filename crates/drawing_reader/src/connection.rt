//! Reads ranges and connections.

ghost use Rattle.std.specs.Prelude.{◌≡◌, ◌≤◌, ◌<◌, List, ◌∷◌, map, length, is_some, option_map, true, IfOk};
ghost use Rattle.drawing_tree.specs.Expression.{expression_of};
ghost use Rattle.drawing_tree.specs.Tree.{written_range_of, item_of, term_of, connection_of};
ghost use Rattle.drawing_grammar.specs.Grammar.{Need, part, group, Range, RangeEnd, Term as TermPart, Atom, Hold, Conn as ConnGroup, SomeConns, Conns as ConnsGroup, Outputs};
ghost use Rattle.drawing_grammar.specs.Machine.{Gives, choice};
ghost use Rattle.drawing_reader.specs.Reader.{tokens_at, ahead, NetAt};
ghost use Rattle.drawing_grammar.specs.Front.{first_terminal};

use crate::cursor::{Cursor, text_of};
use crate::signal::{name, signal};
use assertion_syntax::SignalName;
use drawing_grammar::{Keyword, Terminal};
use drawing_tree::{Conn, Conns, Expr, Item, RangeExpr, Term, Terms, WrittenRange};
use scald_base::{NoMemory, Place, RefusalKind, Stop};
use std::alloc::Global;

/// The same in memory of its own.
pub fn boxed<T: Drop>(alloc: Global, value: T) -> Result<Box<T>, NoMemory>
    ensures { IfOk result (λ made. made.value ≡ value) }
{
    let made = Box::new(alloc, value)?;
    Ok(made)
}

impl<'a> Cursor<'a> {
    fn range_end(&mut self, alloc: Global) -> Result<Option<Expr>, Stop>
        ensures reads { (rest : List Need) → Gives result (λ x v.
            (option_map expression_of x, v)) (ahead self.old (part RangeEnd 0 ∷ rest))
            (ahead self.new rest) }
        ensures no_longer { length self.new.rest ≤ length self.old.rest }
    {
        if !self.starts(Terminal::Colon) {
            return Ok(None);
        }
        self.bump();
        let last = self.own_sum(alloc)?;
        Ok(Some(last))
    }

    /// A range, if one stands here.
    pub fn range(&mut self, alloc: Global) -> Result<WrittenRange, Stop>
        ensures reads { (rest : List Need) → Gives result (λ x v.
            (written_range_of x, v)) (ahead self.old (part Range 0 ∷ rest)) (ahead self.new rest) }
        ensures no_longer { length self.new.rest ≤ length self.old.rest }
    {
        if !self.starts(Terminal::Less) {
            return Ok(None);
        }
        self.bump();
        let first = self.own_sum(alloc)?;
        let last = self.range_end(alloc)?;
        self.mark(Terminal::Greater)?;
        let range = boxed(alloc, RangeExpr { first, last })?;
        Ok(Some(range))
    }

    /// A net, with its range if one follows.
    pub fn net(&mut self, alloc: Global) -> Result<(SignalName, WrittenRange), Stop>
        ensures reads { NetAt result self.old self.new }
        ensures no_longer { length self.new.rest ≤ length self.old.rest }
    {
        let token = self.item(Terminal::Name)?;
        let name = name(alloc, self.text, token)?;
        let range = self.range(alloc)?;
        Ok((name, range))
    }

    fn atom(&mut self, alloc: Global) -> Result<Item, Stop>
        ensures reads { (rest : List Need) →
            Gives result (λ x v. (item_of x, v)) (ahead self.old (part Atom 0 ∷ rest))
            (ahead self.new rest) }
        ensures no_longer { length self.new.rest ≤ length self.old.rest }
    {
        match self.look() {
            Terminal::Zero => {
                self.bump();
                Ok(Item::Zero)
            }
            Terminal::One => {
                self.bump();
                Ok(Item::One)
            }
            Terminal::Name => {
                let token = self.bump();
                let name = signal(alloc, text_of(self.text, token))?;
                let range = self.range(alloc)?;
                Ok(Item::Named(name, range))
            }
            _ => Err(self.refused(RefusalKind::Syntax)),
        }
    }

    /// A term, and the place of its first token.
    fn term(&mut self, alloc: Global) -> Result<(Term, Place), Stop>
        ensures reads { (rest : List Need) →
            Gives result (λ x v. (record { item = term_of x.0; place = x.1 }, v))
            (ahead self.old (part TermPart 0 ∷ rest)) (ahead self.new rest) }
        ensures no_longer { length self.new.rest ≤ length self.old.rest }
    {
        match self.look() {
            Terminal::Minus => {
                let token = self.bump();
                let item = self.atom(alloc)?;
                Ok((Term { minus: true, item }, token.place))
            }
            Terminal::Zero => {
                let token = self.bump();
                Ok((
                    Term {
                        minus: false,
                        item: Item::Zero,
                    },
                    token.place,
                ))
            }
            Terminal::One => {
                let token = self.bump();
                Ok((
                    Term {
                        minus: false,
                        item: Item::One,
                    },
                    token.place,
                ))
            }
            Terminal::Name => {
                let token = self.bump();
                let name = signal(alloc, text_of(self.text, token))?;
                let range = self.range(alloc)?;
                Ok((
                    Term {
                        minus: false,
                        item: Item::Named(name, range),
                    },
                    token.place,
                ))
            }
            _ => Err(self.refused(RefusalKind::Syntax)),
        }
    }

    fn hold(&mut self) -> Result<bool, Stop>
        ensures reads { (rest : List Need) →
            Gives result (λ x v. (x, v)) (ahead self.old (part Hold 0 ∷ rest))
            (ahead self.new rest) }
        ensures no_longer { length self.new.rest ≤ length self.old.rest }
    {
        if !self.starts(Terminal::Exclamation) {
            return Ok(false);
        }
        self.bump();
        self.keyword(Keyword::Hazard)?;
        Ok(true)
    }

    fn connection(&mut self, alloc: Global) -> Result<Conn, Stop>
        ensures reads { (rest : List Need) → Gives result (λ x v.
            (connection_of x, v)) (ahead self.old (group ConnGroup 0 ∷ rest))
            (ahead self.new rest) }
        ensures no_longer { length self.new.rest ≤ length self.old.rest }
    {
        let (first, place) = self.term(alloc)?;
        let mut terms = Terms::new(alloc);
        terms.push(first)?;
        'terms: while self.starts(Terminal::Ampersand) {
            self.bump();
            let (next, _) = self.term(alloc)?;
            terms.push(next)?;
        }
        let hold = self.hold()?;
        Ok(Conn { terms, hold, place })
    }

    fn some_connections(&mut self, alloc: Global) -> Result<Conns, Stop>
        ensures reads { (rest : List Need) → Gives result (λ x v.
            (map connection_of x, v)) (ahead self.old (group SomeConns 0 ∷ rest))
            (ahead self.new rest) }
        ensures no_longer { length self.new.rest ≤ length self.old.rest }
    {
        let first = self.connection(alloc)?;
        let mut all = Conns::new(alloc);
        all.push(first)?;
        'more: while self.starts(Terminal::Comma) {
            self.bump();
            let next = self.connection(alloc)?;
            all.push(next)?;
        }
        Ok(all)
    }

    /// Whether a term stands here.
    fn at_term(&self) -> bool
        ensures { result ≡ is_some (choice TermPart (first_terminal (tokens_at self.now))) }
    {
        matches!(
            self.look(),
            Terminal::Minus | Terminal::Zero | Terminal::One | Terminal::Name
        )
    }

    /// Connections, or none.
    pub fn connections(&mut self, alloc: Global) -> Result<Conns, Stop>
        ensures reads { (rest : List Need) → Gives result (λ x v.
            (map connection_of x, v)) (ahead self.old (group ConnsGroup 0 ∷ rest))
            (ahead self.new rest) }
        ensures no_longer { length self.new.rest ≤ length self.old.rest }
    {
        if !self.at_term() {
            return Ok(Conns::new(alloc));
        }
        let all = self.some_connections(alloc)?;
        Ok(all)
    }

    /// The outputs after an arrow, or none.
    pub fn outputs(&mut self, alloc: Global) -> Result<Conns, Stop>
        ensures reads { (rest : List Need) → Gives result (λ x v.
            (map connection_of x, v)) (ahead self.old (part Outputs 0 ∷ rest))
            (ahead self.new rest) }
        ensures no_longer { length self.new.rest ≤ length self.old.rest }
    {
        if !self.starts(Terminal::Arrow) {
            return Ok(Conns::new(alloc));
        }
        self.bump();
        self.mark(Terminal::OpenParenthesis)?;
        let all = self.some_connections(alloc)?;
        self.mark(Terminal::CloseParenthesis)?;
        Ok(all)
    }
}
