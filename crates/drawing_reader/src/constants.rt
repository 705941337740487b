//! Reads constants, which version 2 of the language has.

ghost use Rattle.std.specs.Prelude.{◌≡◌, ◌≤◌, ◌<◌, List, ◌∷◌, ◌++◌, length, OnOk, IfOk};
ghost use Rattle.drawing_tree.specs.Tree.{assignment_of};
ghost use Rattle.drawing_grammar.specs.declared.terminal.Keyword.TheVariants.{Const};
ghost use Rattle.drawing_grammar.specs.Front.{AtKeyword};
ghost use Rattle.drawing_grammar.specs.Grammar.{Need, part, group, constants, Constant as ConstantPart, Constants as ConstantsGroup};
ghost use Rattle.drawing_grammar.specs.Sketch.{no_constants};
ghost use Rattle.drawing_grammar.specs.Machine.{Gives};
ghost use Rattle.drawing_reader.specs.Reader.{tokens_at, ahead};
ghost use Rattle.drawing_reader.specs.Sketched.{constants_of, with_constants};

use crate::cursor::Cursor;
use drawing_grammar::{Edition, Keyword, Terminal};
use drawing_tree::{Assign, Assigns, Places};
use scald_base::{Place, Stop};
use std::alloc::Global;

/// The constants of a drawing, with the places of their words CONST, and of their names.
#[derive(Drop)]
pub struct Constants {
    pub consts: Assigns,
    pub places: Places,
    pub name_places: Places,
}

/// A constant, with the places of its word CONST and of its name.
#[derive(Drop)]
struct Constant {
    constant: Assign,
    place: Place,
    name_place: Place,
}

impl<'a> Cursor<'a> {
    fn constant(&mut self, alloc: Global) -> Result<Constant, Stop>
        requires { AtKeyword Const (tokens_at self.old) }
        ensures reads { (rest : List Need) → Gives result (λ x v. (
          record {
            constant = assignment_of x.constant;
            place = x.place;
            name_place = x.name_place;
          },
          v,
        )) (ahead self.old (part ConstantPart 0 ∷ rest)) (ahead self.new rest) }
        ensures shorter { OnOk result (length self.new.rest < length self.old.rest) }
        ensures no_longer { length self.new.rest ≤ length self.old.rest }
    {
        let begin = self.bump();
        let (token, name) = self.next_word(alloc)?;
        self.mark(Terminal::Equals)?;
        let value = self.own_sum(alloc)?;
        self.mark(Terminal::Semicolon)?;
        Ok(Constant {
            constant: Assign { name, value },
            place: begin.place,
            name_place: token.place,
        })
    }

    /// The constants, as many as stand here.
    fn some_constants(&mut self, alloc: Global) -> Result<Constants, Stop>
        ensures reads { (rest : List Need) → Gives result (λ x v. (constants_of x, v))
            (ahead self.old (group ConstantsGroup 0 ∷ rest)) (ahead self.new rest) }
        ensures no_longer { length self.new.rest ≤ length self.old.rest }
    {
        let mut consts = Assigns::new(alloc);
        let mut places = Places::new(alloc);
        let mut name_places = Places::new(alloc);
        'each: while self.at_keyword(Keyword::Const) {
            let next = self.constant(alloc)?;
            consts.push(next.constant)?;
            places.push(next.place)?;
            name_places.push(next.name_place)?;
        }
        Ok(Constants {
            consts,
            places,
            name_places,
        })
    }

    /// The constants of a text of this version, of which version 1 has none.
    pub fn constants(&mut self, alloc: Global, edition: Edition) -> Result<Constants, Stop>
        ensures reads { (needs rest : List Need) → Gives result
            (λ x v. with_constants edition needs rest (constants_of x) v)
            (ahead self.old (constants edition needs ++ rest)) (ahead self.new (needs ++ rest)) }
        ensures none { IfOk result (λ x. edition ≡ Edition.First → constants_of x ≡ no_constants) }
    {
        match edition {
            Edition::First => {
                let consts = Assigns::new(alloc);
                let places = Places::new(alloc);
                let name_places = Places::new(alloc);
                Ok(Constants {
                    consts,
                    places,
                    name_places,
                })
            }
            Edition::Second => self.some_constants(alloc),
        }
    }
}
