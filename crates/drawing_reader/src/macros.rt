//! Reads macros.

ghost use Rattle.std.specs.Prelude.{◌≤◌, ◌<◌, List, ◌∷◌, map, length, OnOk};
ghost use Rattle.drawing_tree.specs.Tree.{assignment_of, formal_of, macro_of};
ghost use Rattle.drawing_grammar.specs.Grammar.{Need, mark, part, group, Parameters, Formal as FormalPart, SomeFormals, Formals as FormalsGroup, FormalOutputs, Macro as MacroPart, Macros as MacrosGroup};
ghost use Rattle.drawing_grammar.specs.Machine.{Gives};
ghost use Rattle.drawing_reader.specs.Reader.{ahead};

use crate::cursor::Cursor;
use crate::signal::name;
use assertion_syntax::SignalName;
use drawing_grammar::{Edition, Head, Terminal};
use drawing_tree::{Assigns, Formal, Formals, MacroDef, MacroDefs, Places};
use scald_base::{List, Place, RefusalKind, Stop};
use std::alloc::Global;

/// What the head of a macro declares.
#[derive(Drop)]
struct Declares {
    params: Assigns,
    ins: Formals,
    outs: Formals,
}

impl<'a> Cursor<'a> {
    /// A formal, and the place of its name.
    fn formal(&mut self, alloc: Global) -> Result<(Formal, Place), Stop>
        ensures reads { (rest : List Need) →
            Gives result (λ x v. (record { item = formal_of x.0; place = x.1 }, v))
            (ahead self.old (part FormalPart 0 ∷ rest)) (ahead self.new rest) }
        ensures no_longer { length self.new.rest ≤ length self.old.rest }
    {
        if !self.starts(Terminal::Name) {
            return Err(self.refused(RefusalKind::Syntax));
        }
        let token = self.bump();
        let name = name(alloc, self.text, token)?;
        let SignalName {
            base,
            global: _,
            spec: _,
        } = name;
        let range = self.range(alloc)?;
        Ok((Formal { base, range }, token.place))
    }

    fn some_formals(&mut self, alloc: Global) -> Result<(Formals, Places), Stop>
        ensures reads { (rest : List Need) →
            Gives result (λ x v. (record { items = map formal_of x.0; places = x.1 }, v))
            (ahead self.old (group SomeFormals 0 ∷ rest)) (ahead self.new rest) }
        ensures no_longer { length self.new.rest ≤ length self.old.rest }
    {
        let (first, place) = self.formal(alloc)?;
        let mut all = Formals::new(alloc);
        all.push(first)?;
        let mut places = Places::new(alloc);
        places.push(place)?;
        'more: while self.starts(Terminal::Comma) {
            self.bump();
            let (next, place) = self.formal(alloc)?;
            all.push(next)?;
            places.push(place)?;
        }
        Ok((all, places))
    }

    fn formals(&mut self, alloc: Global) -> Result<(Formals, Places), Stop>
        ensures reads { (rest : List Need) →
            Gives result (λ x v. (record { items = map formal_of x.0; places = x.1 }, v))
            (ahead self.old (group FormalsGroup 0 ∷ rest)) (ahead self.new rest) }
        ensures no_longer { length self.new.rest ≤ length self.old.rest }
    {
        if !self.starts(Terminal::Name) {
            return Ok((Formals::new(alloc), Places::new(alloc)));
        }
        let all = self.some_formals(alloc)?;
        Ok(all)
    }

    /// The inputs of a macro, in parentheses.
    fn formal_inputs(&mut self, alloc: Global) -> Result<(Formals, Places), Stop>
        ensures reads { (rest : List Need) →
            Gives result (λ x v.
            (record { items = map formal_of x.0; places = x.1 }, v))
            (ahead self.old (mark Terminal.OpenParenthesis ∷
            group FormalsGroup 0 ∷ mark Terminal.CloseParenthesis ∷ rest)) (ahead self.new rest) }
        ensures no_longer { length self.new.rest ≤ length self.old.rest }
    {
        self.mark(Terminal::OpenParenthesis)?;
        let all = self.formals(alloc)?;
        self.mark(Terminal::CloseParenthesis)?;
        Ok(all)
    }

    fn formal_outputs(&mut self, alloc: Global) -> Result<(Formals, Places), Stop>
        ensures reads { (rest : List Need) →
            Gives result (λ x v. (record { items = map formal_of x.0; places = x.1 }, v))
            (ahead self.old (part FormalOutputs 0 ∷ rest)) (ahead self.new rest) }
        ensures no_longer { length self.new.rest ≤ length self.old.rest }
    {
        if !self.starts(Terminal::Arrow) {
            return Ok((Formals::new(alloc), Places::new(alloc)));
        }
        self.bump();
        self.mark(Terminal::OpenParenthesis)?;
        let all = self.some_formals(alloc)?;
        self.mark(Terminal::CloseParenthesis)?;
        Ok(all)
    }

    /// What stands between the name of a macro and its statements, and where it names what it
    /// declares.
    fn head(&mut self, alloc: Global) -> Result<(Declares, Head), Stop>
        ensures reads { (rest : List Need) →
            Gives result (λ x v. (
              record { items = map assignment_of x.0.params; places = x.1.parameters },
              (
                record { items = map formal_of x.0.ins; places = x.1.ins },
                (record { items = map formal_of x.0.outs; places = x.1.outs }, v),
              ),
            ))
            (ahead self.old (part Parameters 0 ∷ mark Terminal.OpenParenthesis
            ∷ group FormalsGroup 0 ∷ mark Terminal.CloseParenthesis ∷ part FormalOutputs 0 ∷ rest))
            (ahead self.new rest) }
        ensures no_longer { length self.new.rest ≤ length self.old.rest }
    {
        let (params, parameters) = self.parameters(alloc)?;
        let (ins, in_places) = self.formal_inputs(alloc)?;
        let (outs, out_places) = self.formal_outputs(alloc)?;
        let head = Head {
            parameters,
            ins: in_places,
            outs: out_places,
        };
        Ok((Declares { params, ins, outs }, head))
    }

    fn definition(&mut self, alloc: Global, edition: Edition) -> Result<(MacroDef, Head), Stop>
        ensures reads { (rest : List Need) →
            Gives result (λ x v. (record { macro = macro_of x.0; head = x.1 }, v))
            (ahead self.old (part (MacroPart edition) 0 ∷ rest)) (ahead self.new rest) }
        ensures shorter { OnOk result (length self.new.rest < length self.old.rest) }
        ensures no_longer { length self.new.rest ≤ length self.old.rest }
    {
        if !self.starts(Terminal::Macro) {
            return Err(self.refused(RefusalKind::Syntax));
        }
        self.bump();
        let (token, name) = self.next_word(alloc)?;
        let (declares, head) = self.head(alloc)?;
        let body = self.body(alloc, edition)?;
        let definition = MacroDef {
            name,
            params: declares.params,
            ins: declares.ins,
            outs: declares.outs,
            body,
            place: token.place,
        };
        Ok((definition, head))
    }

    /// The macros, and where their heads name what they declare.
    pub fn definitions(
        &mut self,
        alloc: Global,
        edition: Edition,
    ) -> Result<(MacroDefs, List<Head>), Stop>
        ensures reads { (rest : List Need) →
            Gives result (λ x v. (record { macros = map macro_of x.0; heads = x.1 }, v))
            (ahead self.old (group (MacrosGroup edition) 0 ∷ rest)) (ahead self.new rest) }
        ensures no_longer { length self.new.rest ≤ length self.old.rest }
    {
        let mut all = MacroDefs::new(alloc);
        let mut heads = List::new(alloc);
        'each: while self.starts(Terminal::Macro) {
            let (next, head) = self.definition(alloc, edition)?;
            all.push(next)?;
            heads.push(head)?;
        }
        Ok((all, heads))
    }
}
