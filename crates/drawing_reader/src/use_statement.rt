//! Reads a use of a macro or of a primitive.

ghost use Rattle.std.specs.Prelude.{◌≡◌, ◌≤◌, ◌<◌, false, ℕ, List, ◌∷◌, map, length, OnOk, option_map};
ghost use Rattle.drawing_tree.specs.Tree as tree;
ghost use Rattle.drawing_tree.specs.Tree.{assignment_of, both_of, written_fall_of, connection_of, use_of};
ghost use Rattle.drawing_grammar.specs.Grammar.{Need, mark, part, group, Assign as AssignPart, Assigns as AssignsGroup, Parameters, Conns as ConnsGroup, Outputs, Delay as DelayPart, Fall as FallPart, Statement as StatementPart};
ghost use Rattle.drawing_grammar.specs.Machine.{Gives};
ghost use Rattle.drawing_reader.specs.Reader.{tokens_at, ahead, DetailsAt};
ghost use Rattle.drawing_grammar.specs.Front.{first_terminal, at_loop};
ghost use Rattle.drawing_grammar.specs.declared.edition.Edition.{Edition as Version};

use crate::connection::boxed;
use crate::cursor::Cursor;
use crate::signal::word;
use drawing_grammar::Terminal;
use drawing_tree::{Assign, Assigns, Conns, Expr, Places, UseStmt};
use scald_base::{Place, RefusalKind, Stop};
use std::alloc::Global;

/// The delays of a use, as they are written.
#[derive(Drop)]
struct Delays {
    delay: Option<(Expr, Expr)>,
    fall: Option<Box<(Expr, Expr)>>,
}

/// What follows the kind of a use.
#[derive(Drop)]
struct Details {
    delay: Option<(Expr, Expr)>,
    fall: Option<Box<(Expr, Expr)>>,
    params: Assigns,
    ins: Conns,
    outs: Conns,
}

impl<'a> Cursor<'a> {
    /// A parameter and its value, and the place of its name.
    fn assign(&mut self, alloc: Global) -> Result<(Assign, Place), Stop>
        ensures reads { (rest : List Need) →
            Gives result (λ x v. (record { item = assignment_of x.0; place = x.1 }, v))
            (ahead self.old (part AssignPart 0 ∷ rest)) (ahead self.new rest) }
        ensures no_longer { length self.new.rest ≤ length self.old.rest }
    {
        if !self.starts(Terminal::Word) {
            return Err(self.refused(RefusalKind::Syntax));
        }
        let token = self.bump();
        let name = word(alloc, self.text, token)?;
        self.mark(Terminal::Equals)?;
        let value = self.own_sum(alloc)?;
        Ok((Assign { name, value }, token.place))
    }

    fn assigns(&mut self, alloc: Global) -> Result<(Assigns, Places), Stop>
        ensures reads { (rest : List Need) →
            Gives result (λ x v. (record { items = map assignment_of x.0; places = x.1 }, v))
            (ahead self.old (group AssignsGroup 0 ∷ rest)) (ahead self.new rest) }
        ensures no_longer { length self.new.rest ≤ length self.old.rest }
    {
        let (first, place) = self.assign(alloc)?;
        let mut all = Assigns::new(alloc);
        all.push(first)?;
        let mut places = Places::new(alloc);
        places.push(place)?;
        'more: while self.starts(Terminal::Comma) {
            self.bump();
            let (next, place) = self.assign(alloc)?;
            all.push(next)?;
            places.push(place)?;
        }
        Ok((all, places))
    }

    /// Parameters in braces, or none, and the places of their names.
    pub fn parameters(&mut self, alloc: Global) -> Result<(Assigns, Places), Stop>
        ensures reads { (rest : List Need) →
            Gives result (λ x v. (record { items = map assignment_of x.0; places = x.1 }, v))
            (ahead self.old (part Parameters 0 ∷ rest)) (ahead self.new rest) }
        ensures no_longer { length self.new.rest ≤ length self.old.rest }
    {
        if !self.starts(Terminal::OpenBrace) {
            return Ok((Assigns::new(alloc), Places::new(alloc)));
        }
        self.bump();
        let all = self.assigns(alloc)?;
        self.mark(Terminal::CloseBrace)?;
        Ok(all)
    }

    /// A comma and the delay of falls, or nothing.
    fn fall(&mut self, alloc: Global) -> Result<Option<Box<(Expr, Expr)>>, Stop>
        ensures reads { (rest : List Need) → Gives result (λ x v.
            (written_fall_of x, v)) (ahead self.old (part FallPart 0 ∷ rest))
            (ahead self.new rest) }
        ensures no_longer { length self.new.rest ≤ length self.old.rest }
    {
        if !self.starts(Terminal::Comma) {
            return Ok(None);
        }
        self.bump();
        let bounds = self.two_sums(alloc)?;
        let bounds = boxed(alloc, bounds)?;
        Ok(Some(bounds))
    }

    /// The delay of a use in brackets, with that of falls if two are written, or nothing.
    fn delays(&mut self, alloc: Global) -> Result<Delays, Stop>
        ensures reads { (rest : List Need) →
            Gives result (λ x v.
            (record { delay = option_map both_of x.delay; fall = written_fall_of x.fall }, v))
            (ahead self.old (part DelayPart 0 ∷ rest)) (ahead self.new rest) }
        ensures no_longer { length self.new.rest ≤ length self.old.rest }
    {
        if !self.starts(Terminal::OpenBracket) {
            return Ok(Delays {
                delay: None,
                fall: None,
            });
        }
        self.bump();
        let bounds = self.two_sums(alloc)?;
        let fall = self.fall(alloc)?;
        self.mark(Terminal::CloseBracket)?;
        Ok(Delays {
            delay: Some(bounds),
            fall,
        })
    }

    /// The pins of a use, inputs before outputs, and the semicolon after them.
    fn pins(&mut self, alloc: Global) -> Result<(Conns, Conns), Stop>
        ensures reads { (rest : List Need) →
            Gives result (λ x v.
            (map connection_of x.0, (map connection_of x.1, v)))
            (ahead self.old (mark Terminal.OpenParenthesis ∷ group ConnsGroup 0
            ∷ mark Terminal.CloseParenthesis ∷ part Outputs 0 ∷ mark Terminal.Semicolon ∷ rest))
            (ahead self.new rest) }
        ensures no_longer { length self.new.rest ≤ length self.old.rest }
    {
        self.mark(Terminal::OpenParenthesis)?;
        let ins = self.connections(alloc)?;
        self.mark(Terminal::CloseParenthesis)?;
        let outs = self.outputs(alloc)?;
        self.mark(Terminal::Semicolon)?;
        Ok((ins, outs))
    }

    fn details(&mut self, alloc: Global) -> Result<Details, Stop>
        ensures reads { DetailsAt result self.old self.new }
        ensures no_longer { length self.new.rest ≤ length self.old.rest }
    {
        let delays = self.delays(alloc)?;
        let (params, _) = self.parameters(alloc)?;
        let (ins, outs) = self.pins(alloc)?;
        Ok(Details {
            delay: delays.delay,
            fall: delays.fall,
            params,
            ins,
            outs,
        })
    }

    /// A use of a macro or of a primitive, from its label to its semicolon.
    pub fn use_statement(&mut self, alloc: Global) -> Result<UseStmt, Stop>
        requires { first_terminal (tokens_at self.old) ≡ Terminal.Word }
        ensures reads { (e : Version) (n : ℕ) (rest : List Need) →
            at_loop e (tokens_at self.old) ≡ false →
            Gives result (λ x v. (tree.Use (use_of x), v))
            (ahead self.old (part (StatementPart e) n ∷ rest)) (ahead self.new rest) }
        ensures shorter { OnOk result (length self.new.rest < length self.old.rest) }
        ensures no_longer { length self.new.rest ≤ length self.old.rest }
    {
        let token = self.bump();
        let label = word(alloc, self.text, token)?;
        self.mark(Terminal::Colon)?;
        let (_, kind) = self.next_word(alloc)?;
        let details = self.details(alloc)?;
        Ok(UseStmt {
            label,
            kind,
            delay: details.delay,
            fall: details.fall,
            params: details.params,
            ins: details.ins,
            outs: details.outs,
            place: token.place,
        })
    }
}
