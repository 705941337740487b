//! Reads statements of a version of the language, with so many IFs and FORs open.

ghost use Rattle.std.specs.Prelude.{◌≡◌, ◌≢◌, ◌≤◌, ◌<◌, true, ℕ, List, [], ◌∷◌, ◌++◌, length, OnOk, is_some};
ghost use Rattle.drawing_tree.specs.Expression.{expression_of};
ghost use Rattle.drawing_tree.specs.Tree as tree;
ghost use Rattle.drawing_tree.specs.Tree.{wire_of, statement_of, statements_of, else_of};
ghost use Rattle.drawing_grammar.specs.Grammar.{Need, fresh, mark, keyword, part, group, own_sum, Expr as Whole, Statement as StatementPart, Statements as StatementsGroup, Otherwise as OtherwisePart};
ghost use Rattle.drawing_grammar.specs.declared.terminal.Keyword.TheVariants.{To, Do};
ghost use Rattle.drawing_grammar.specs.declared.terminal.Terminal.TheVariants.{EndOfText};
ghost use Rattle.drawing_grammar.specs.Machine.{Gives, choice};
ghost use Rattle.drawing_reader.specs.Reader.{tokens_at, ahead, body, ValuesAt};
ghost use Rattle.drawing_grammar.specs.Front.{first_terminal, at_loop};
ghost use Rattle.drawing_grammar.specs.declared.edition.Edition.{Edition as Version};

use crate::cursor::Cursor;
use drawing_grammar::{Edition, Keyword, Terminal};
use drawing_tree::{Expr, ForStmt, IfStmt, Stmt, Stmts, WireStmt};
use scald_base::{Bytes, NoMemory, RefusalKind, Stop};
use std::alloc::Global;

fn put(all: &mut Stmts, next: Stmt) -> Result<(), NoMemory>
    ensures { OnOk result (all.new.items ≡ all.old.items ++ next ∷ []) }
{
    all.push(next)?;
    Ok(())
}

impl<'a> Cursor<'a> {
    /// Two sums with a colon between them, and what closes them.
    fn sums(&mut self, alloc: Global, close: Terminal) -> Result<(Expr, Expr), Stop>
        requires { close ≢ EndOfText }
        ensures reads { (rest : List Need) →
            Gives result (λ x v. (expression_of x.0, (expression_of x.1, v)))
            (ahead self.old (own_sum (mark Terminal.Colon ∷ own_sum (mark close ∷ rest))))
            (ahead self.new rest) }
        ensures no_longer { length self.new.rest ≤ length self.old.rest }
    {
        let both = self.two_sums(alloc)?;
        self.mark(close)?;
        Ok(both)
    }

    fn wire_statement(&mut self, alloc: Global) -> Result<WireStmt, Stop>
        requires { first_terminal (tokens_at self.old) ≡ Terminal.Wire }
        ensures reads { (e : Version) (n : ℕ) (rest : List Need) → Gives result (λ x v.
            (tree.Wire (wire_of x), v)) (ahead self.old (part (StatementPart e) n ∷ rest))
            (ahead self.new rest) }
        ensures shorter { OnOk result (length self.new.rest < length self.old.rest) }
        ensures no_longer { length self.new.rest ≤ length self.old.rest }
    {
        let token = self.bump();
        let net = self.net(alloc)?;
        let (min, max) = self.sums(alloc, Terminal::Semicolon)?;
        let (name, range) = net;
        Ok(WireStmt {
            name,
            range,
            min,
            max,
            place: token.place,
        })
    }

    /// The condition of an IF, and the word THEN after it.
    fn condition(&mut self, alloc: Global) -> Result<Expr, Stop>
        ensures reads { (rest : List Need) → Gives result (λ x v. (expression_of x, v))
            (ahead self.old (fresh ∷ group Whole 0 ∷ mark Terminal.Then ∷ rest))
            (ahead self.new rest) }
        ensures no_longer { length self.new.rest ≤ length self.old.rest }
    {
        let test = self.own_expression(alloc)?;
        self.mark(Terminal::Then)?;
        Ok(test)
    }

    /// The word END, and the semicolon after it.
    fn end(&mut self) -> Result<(), Stop>
        ensures reads { (rest : List Need) → Gives result (λ _ v.
            v) (ahead self.old (mark Terminal.End ∷ mark Terminal.Semicolon ∷ rest))
            (ahead self.new rest) }
        ensures no_longer { length self.new.rest ≤ length self.old.rest }
    {
        self.mark(Terminal::End)?;
        self.mark(Terminal::Semicolon)?;
        Ok(())
    }

    /// The first and the last value of the variable of a FOR, and the word DO after them.
    fn ends(&mut self, alloc: Global) -> Result<(Expr, Expr), Stop>
        ensures reads { (rest : List Need) →
            Gives result (λ x v. (expression_of x.0, (expression_of x.1, v)))
            (ahead self.old (own_sum (keyword To ∷ own_sum (keyword Do ∷ rest))))
            (ahead self.new rest) }
        ensures no_longer { length self.new.rest ≤ length self.old.rest }
    {
        let first = self.own_sum(alloc)?;
        self.keyword(Keyword::To)?;
        let last = self.own_sum(alloc)?;
        self.keyword(Keyword::Do)?;
        Ok((first, last))
    }

    /// The variable of a FOR, and the first and the last value that it takes.
    fn values(&mut self, alloc: Global) -> Result<(Bytes, Expr, Expr), Stop>
        ensures reads { ValuesAt result self.old self.new }
        ensures no_longer { length self.new.rest ≤ length self.old.rest }
    {
        let (_, var) = self.next_word(alloc)?;
        self.mark(Terminal::Equals)?;
        let (first, last) = self.ends(alloc)?;
        Ok((var, first, last))
    }

    #[cycle(statement)]
    fn if_statement(&mut self, alloc: Global, edition: Edition, depth: usize) -> Result<Stmt, Stop>
        requires { first_terminal (tokens_at self.old) ≡ Terminal.If }
        ensures reads { (rest : List Need) → Gives result (λ x v.
            (statement_of x, v)) (ahead self.old (part (StatementPart edition) depth ∷ rest))
            (ahead self.new rest) }
        ensures shorter { OnOk result (length self.new.rest < length self.old.rest) }
        ensures no_longer { length self.new.rest ≤ length self.old.rest }
    {
        let inner = self.deeper(depth)?;
        let token = self.bump();
        let test = self.condition(alloc)?;
        let yes = self.statements(alloc, edition, inner)?;
        let no = self.otherwise(alloc, edition, inner)?;
        self.end()?;
        Ok(Stmt::If(IfStmt {
            test,
            yes,
            no,
            place: token.place,
        }))
    }

    #[cycle(statement)]
    fn for_statement(&mut self, alloc: Global, depth: usize) -> Result<Stmt, Stop>
        requires { at_loop Edition.Second (tokens_at self.old) ≡ true }
        ensures reads { (rest : List Need) → Gives result (λ x v. (statement_of x, v))
            (ahead self.old (part (StatementPart Edition.Second) depth ∷ rest))
            (ahead self.new rest) }
        ensures shorter { OnOk result (length self.new.rest < length self.old.rest) }
        ensures no_longer { length self.new.rest ≤ length self.old.rest }
    {
        let inner = self.deeper(depth)?;
        let token = self.bump();
        let (var, first, last) = self.values(alloc)?;
        let body = self.statements(alloc, Edition::Second, inner)?;
        self.end()?;
        Ok(Stmt::For(ForStmt {
            var,
            first,
            last,
            body,
            place: token.place,
        }))
    }

    #[cycle(statement)]
    fn statement(&mut self, alloc: Global, edition: Edition, depth: usize) -> Result<Stmt, Stop>
        ensures reads { (rest : List Need) → Gives result (λ x v.
            (statement_of x, v)) (ahead self.old (part (StatementPart edition) depth ∷ rest))
            (ahead self.new rest) }
        ensures shorter { OnOk result (length self.new.rest < length self.old.rest) }
        ensures no_longer { length self.new.rest ≤ length self.old.rest }
    {
        if self.at_loop(edition) {
            return self.for_statement(alloc, depth);
        }
        match self.look() {
            Terminal::Word => {
                let part = self.use_statement(alloc)?;
                Ok(Stmt::Use(part))
            }
            Terminal::Wire => {
                let wire = self.wire_statement(alloc)?;
                Ok(Stmt::Wire(wire))
            }
            Terminal::If => {
                let choice = self.if_statement(alloc, edition, depth)?;
                Ok(choice)
            }
            _ => Err(self.refused(RefusalKind::Syntax)),
        }
    }

    /// Whether a statement may begin here. The word FOR may begin one in both versions.
    fn at_statement(&self, edition: Edition) -> bool
        ensures { result ≡ is_some (choice (StatementPart edition)
            (first_terminal (tokens_at self.now))) }
    {
        matches!(self.look(), Terminal::Word | Terminal::Wire | Terminal::If)
    }

    /// The statements of a macro or of a drawing, from the semicolon in front of them to the END
    /// after them.
    pub fn body(&mut self, alloc: Global, edition: Edition) -> Result<Stmts, Stop>
        ensures reads { (rest : List Need) →
            Gives result (λ x v. (statements_of x.items, v))
            (ahead self.old (body edition rest)) (ahead self.new rest) }
        ensures no_longer { length self.new.rest ≤ length self.old.rest }
    {
        self.mark(Terminal::Semicolon)?;
        let all = self.statements(alloc, edition, 0)?;
        self.end()?;
        Ok(all)
    }

    /// Statements, as many as stand here.
    #[cycle(statement)]
    fn statements(&mut self, alloc: Global, edition: Edition, depth: usize) -> Result<Stmts, Stop>
        ensures reads { (rest : List Need) → Gives result (λ x v. (statements_of x.items, v))
            (ahead self.old (group (StatementsGroup edition) depth ∷ rest)) (ahead self.new rest) }
        ensures no_longer { length self.new.rest ≤ length self.old.rest }
    {
        let mut all = Stmts::new(alloc);
        'each: while self.at_statement(edition) {
            let next = self.statement(alloc, edition, depth)?;
            put(&mut all, next)?;
        }
        Ok(all)
    }

    #[cycle(statement)]
    fn otherwise(
        &mut self,
        alloc: Global,
        edition: Edition,
        depth: usize,
    ) -> Result<Option<Stmts>, Stop>
        ensures reads { (rest : List Need) → Gives result (λ x v.
            (else_of x, v)) (ahead self.old (part (OtherwisePart edition) depth ∷ rest))
            (ahead self.new rest) }
        ensures no_longer { length self.new.rest ≤ length self.old.rest }
    {
        if !self.starts(Terminal::Else) {
            return Ok(None);
        }
        self.bump();
        let no = self.statements(alloc, edition, depth)?;
        Ok(Some(no))
    }
}
