//! Reads cases.

ghost use Rattle.std.specs.Prelude.{◌≡◌, ◌≤◌, ◌<◌, ◌-◌, ◌^◌, List, ◌∷◌, length, OnOk, min};
ghost use Rattle.drawing_grammar.specs.Header.{natural};
ghost use Rattle.drawing_grammar.specs.Lexeme.{kind_number};
ghost use Rattle.drawing_grammar.specs.Grammar.{Need, part, group, Index, Entry, Entries, CaseStatement, Cases};
ghost use Rattle.drawing_grammar.specs.Machine.{Gives};
ghost use Rattle.drawing_reader.specs.Reader.{ahead};

use crate::cursor::{Cursor, text_of};
use crate::signal::signal;
use drawing_grammar::Terminal;
use drawing_tree::{CaseEntries, CaseEntry, CaseStmt, CaseStmts};
use scald_base::{RefusalKind, Stop};
use scald_lex::TokenKind;
use std::alloc::Global;

/// The number of a token, or the greatest of 32 bits if it is greater.
fn capped(kind: TokenKind) -> u32
    ensures { result ≡ min (natural (kind_number kind)) (2 ^ 32 - 1) }
{
    match kind {
        TokenKind::Number(value) => {
            if value < 0 {
                0
            } else if value > 4294967295 {
                4294967295
            } else {
                value as u32
            }
        }
        _ => 0,
    }
}

impl<'a> Cursor<'a> {
    fn index(&mut self) -> Result<u32, Stop>
        ensures reads { (rest : List Need) →
            Gives result (λ x v. (x, v)) (ahead self.old (part Index 0 ∷ rest))
            (ahead self.new rest) }
        ensures no_longer { length self.new.rest ≤ length self.old.rest }
    {
        if !self.starts(Terminal::Less) {
            return Ok(0);
        }
        self.bump();
        let token = self.item(Terminal::Number)?;
        self.mark(Terminal::Greater)?;
        Ok(capped(token.kind))
    }

    fn entry(&mut self, alloc: Global) -> Result<CaseEntry, Stop>
        ensures reads { (rest : List Need) →
            Gives result (λ x v. (x, v)) (ahead self.old (part Entry 0 ∷ rest))
            (ahead self.new rest) }
        ensures no_longer { length self.new.rest ≤ length self.old.rest }
    {
        if !self.starts(Terminal::Name) {
            return Err(self.refused(RefusalKind::Syntax));
        }
        let token = self.bump();
        let text = text_of(self.text, token);
        let bit = self.index()?;
        self.mark(Terminal::Equals)?;
        let number = self.item(Terminal::Number)?;
        let name = signal(alloc, text)?;
        Ok(CaseEntry {
            name,
            bit,
            value: capped(number.kind),
            place: token.place,
        })
    }

    fn entries(&mut self, alloc: Global) -> Result<CaseEntries, Stop>
        ensures reads { (rest : List Need) →
            Gives result (λ x v. (x, v)) (ahead self.old (group Entries 0 ∷ rest))
            (ahead self.new rest) }
        ensures no_longer { length self.new.rest ≤ length self.old.rest }
    {
        let first = self.entry(alloc)?;
        let mut all = CaseEntries::new(alloc);
        all.push(first)?;
        'more: while self.starts(Terminal::Comma) {
            self.bump();
            let next = self.entry(alloc)?;
            all.push(next)?;
        }
        Ok(all)
    }

    fn case_statement(&mut self, alloc: Global) -> Result<CaseStmt, Stop>
        ensures reads { (rest : List Need) →
            Gives result (λ x v. (x, v)) (ahead self.old (part CaseStatement 0 ∷ rest))
            (ahead self.new rest) }
        ensures shorter { OnOk result (length self.new.rest < length self.old.rest) }
        ensures no_longer { length self.new.rest ≤ length self.old.rest }
    {
        if !self.starts(Terminal::Case) {
            return Err(self.refused(RefusalKind::Syntax));
        }
        let token = self.bump();
        let entries = self.entries(alloc)?;
        self.mark(Terminal::Semicolon)?;
        Ok(CaseStmt {
            entries,
            place: token.place,
        })
    }

    /// The cases.
    pub fn cases(&mut self, alloc: Global) -> Result<CaseStmts, Stop>
        ensures reads { (rest : List Need) →
            Gives result (λ x v. (x, v)) (ahead self.old (group Cases 0 ∷ rest))
            (ahead self.new rest) }
        ensures no_longer { length self.new.rest ≤ length self.old.rest }
    {
        let mut all = CaseStmts::new(alloc);
        'each: while self.starts(Terminal::Case) {
            let next = self.case_statement(alloc)?;
            all.push(next)?;
        }
        Ok(all)
    }
}
