//! Reads expressions. Each function gets how many parentheses and minus signs are open.

ghost use Rattle.std.specs.Prelude.{◌≡◌, ◌≢◌, ◌≤◌, ◌<◌, ℕ, suc, List, ◌∷◌, length, IfOk, OnOk, IfErr, IfSome, IfNone, IsFalse, Some, None};
ghost use Rattle.drawing_tree.specs.Expression.{expression_of};
ghost use Rattle.drawing_tree.specs.Expression as Expression;
ghost use Rattle.drawing_grammar.specs.declared.terminal.Terminal.TheVariants.{EndOfText};
ghost use Rattle.drawing_grammar.specs.Lexeme.{kind_number};
ghost use Rattle.drawing_grammar.specs.Grammar.{Need, mark, part, group, fresh, own_sum, Unary, Factors, Terms, OrEqual, Product, Sum, Expr as Whole};
ghost use Rattle.drawing_grammar.specs.Sketch.{less_or, greater_or};
ghost use Rattle.drawing_grammar.specs.Machine.{Gives, Moves, choice, refusal};
ghost use Rattle.drawing_reader.specs.Reader.{tokens_at, ahead, Taken};
ghost use Rattle.drawing_grammar.specs.Front.{first_terminal, first_place, behind_first};
ghost use Rattle.drawing_reader.specs.Operators.{FactorAt, TermAt, ComparisonAt};

use crate::cursor::{Cursor, text_of};
use drawing_grammar::Terminal;
use drawing_tree::{Expr, Op};
use scald_base::{Bytes, NoMemory, RefusalKind, Stop};
use scald_lex::{Token, TokenKind};
use std::alloc::Global;

/// The most parentheses and minus signs that may be open at once, and the most binary operators of
/// an expression.
const LIMIT: usize = 64;

fn number(kind: TokenKind) -> Expr
    ensures { expression_of result ≡ Expression.Number (kind_number kind) }
{
    match kind {
        TokenKind::Number(value) => Expr::Number(value),
        _ => Expr::Number(0),
    }
}

fn negated(alloc: Global, operand: Expr) -> Result<Expr, NoMemory>
    ensures { IfOk result (λ e. expression_of e ≡ Expression.Negate (expression_of operand)) }
{
    Ok(Expr::Negate(Box::new(alloc, operand)?))
}

fn binary(alloc: Global, op: Op, left: Expr, right: Expr) -> Result<Expr, NoMemory>
    ensures { IfOk result (λ e.
        expression_of e ≡ Expression.Binary op (expression_of left) (expression_of right)) }
{
    let left = Box::new(alloc, left)?;
    let right = Box::new(alloc, right)?;
    Ok(Expr::Binary(op, left, right))
}

fn below(equal: bool) -> Op
    ensures { result ≡ less_or equal }
{
    if equal { Op::Le } else { Op::Lt }
}

fn above(equal: bool) -> Op
    ensures { result ≡ greater_or equal }
{
    if equal { Op::Ge } else { Op::Gt }
}

/// Whether an operator between factors begins with this.
fn multiplies(terminal: Terminal) -> bool
    ensures { IsFalse result → choice Factors terminal ≡ None }
{
    matches!(terminal, Terminal::Star | Terminal::Slash)
}

/// Whether an operator between terms begins with this.
fn adds(terminal: Terminal) -> bool
    ensures { IsFalse result → choice Terms terminal ≡ None }
{
    matches!(terminal, Terminal::Plus | Terminal::Minus)
}

impl<'a> Cursor<'a> {
    /// One more is open, if the limit allows it.
    pub fn deeper(&self, depth: usize) -> Result<usize, Stop>
        ensures ok { IfOk result (λ n. n ≡ suc depth) }
        ensures room { OnOk result (depth < 64) }
        ensures err { IfErr result (λ s.
            (s ≡ Stop.Refused (refusal RefusalKind.TooDeep (first_place (tokens_at self.now))))
            × (64 ≤ depth)) }
    {
        if depth >= LIMIT {
            return Err(self.refused(RefusalKind::TooDeep));
        }
        Ok(depth + 1)
    }

    /// Takes the first token of a binary operator.
    fn operator(&mut self) -> Result<(), Stop>
        ensures taken { OnOk result (first_terminal (tokens_at self.old) ≢ EndOfText →
            Taken self.old self.new) }
        ensures counted { OnOk result (self.new.operators ≡ suc self.old.operators) }
        ensures room { OnOk result (self.old.operators < 64) }
        ensures err { IfErr result (λ s.
            (s ≡ Stop.Refused (refusal RefusalKind.TooDeep (first_place (tokens_at self.old))))
            × (64 ≤ self.old.operators)) }
        ensures shorter { OnOk result
            (first_terminal (tokens_at self.old) ≢ EndOfText →
            length self.new.rest < length self.old.rest) }
        ensures no_longer { length self.new.rest ≤ length self.old.rest }
    {
        if self.operators >= LIMIT {
            return Err(self.refused(RefusalKind::TooDeep));
        }
        self.bump();
        self.operators += 1;
        Ok(())
    }

    fn factor_operator(&mut self) -> Result<Option<Op>, Stop>
        ensures reads { FactorAt result self.old self.new }
        ensures shorter { IfOk result (λ o.
            IfSome o (λ _. length self.new.rest < length self.old.rest)) }
        ensures no_longer { length self.new.rest ≤ length self.old.rest }
    {
        match self.look() {
            Terminal::Star => {
                self.operator()?;
                Ok(Some(Op::Mul))
            }
            Terminal::Slash => {
                self.operator()?;
                Ok(Some(Op::Div))
            }
            _ => Ok(None),
        }
    }

    fn term_operator(&mut self) -> Result<Option<Op>, Stop>
        ensures reads { TermAt result self.old self.new }
        ensures shorter { IfOk result (λ o.
            IfSome o (λ _. length self.new.rest < length self.old.rest)) }
        ensures no_longer { length self.new.rest ≤ length self.old.rest }
    {
        match self.look() {
            Terminal::Plus => {
                self.operator()?;
                Ok(Some(Op::Add))
            }
            Terminal::Minus => {
                self.operator()?;
                Ok(Some(Op::Sub))
            }
            _ => Ok(None),
        }
    }

    /// Takes an equals sign that may stand here.
    fn or_equal(&mut self) -> bool
        ensures reads { (n : ℕ) (rest : List Need) →
            Moves (ahead self.old (part OrEqual n ∷ rest))
            (ahead self.new rest) (λ v. (result, v)) }
        ensures no_longer { length self.new.rest ≤ length self.old.rest }
    {
        if !self.starts(Terminal::Equals) {
            return false;
        }
        self.bump();
        true
    }

    fn comparison(&mut self) -> Result<Option<Op>, Stop>
        ensures reads { ComparisonAt result self.old self.new }
        ensures no_longer { length self.new.rest ≤ length self.old.rest }
    {
        match self.look() {
            Terminal::Equals => {
                self.operator()?;
                Ok(Some(Op::Eq))
            }
            Terminal::Exclamation => {
                self.operator()?;
                self.mark(Terminal::Equals)?;
                Ok(Some(Op::Ne))
            }
            Terminal::Less => {
                self.operator()?;
                let equal = self.or_equal();
                Ok(Some(below(equal)))
            }
            Terminal::Greater => {
                self.operator()?;
                let equal = self.or_equal();
                Ok(Some(above(equal)))
            }
            _ => Ok(None),
        }
    }

    #[cycle(expression)]
    fn unary(&mut self, alloc: Global, depth: usize) -> Result<Expr, Stop>
        ensures reads { (rest : List Need) → Gives result (λ e v.
            (expression_of e, v)) (ahead self.old (part Unary depth ∷ rest)) (ahead self.new rest) }
        ensures no_longer { length self.new.rest ≤ length self.old.rest }
    {
        match self.look() {
            Terminal::Number => {
                let token = self.bump();
                Ok(number(token.kind))
            }
            Terminal::Word => {
                let token = self.bump();
                let name = Bytes::of(alloc, text_of(self.text, token))?;
                Ok(Expr::Param(name))
            }
            Terminal::Minus => {
                let inner = self.deeper(depth)?;
                self.bump();
                let operand = self.unary(alloc, inner)?;
                Ok(negated(alloc, operand)?)
            }
            Terminal::OpenParenthesis => {
                let inner = self.deeper(depth)?;
                self.bump();
                let whole = self.whole(alloc, inner)?;
                self.mark(Terminal::CloseParenthesis)?;
                Ok(whole)
            }
            _ => Err(self.refused(RefusalKind::Syntax)),
        }
    }

    #[cycle(expression)]
    fn product(&mut self, alloc: Global, depth: usize) -> Result<Expr, Stop>
        ensures reads { (rest : List Need) → Gives result (λ e v.
            (expression_of e, v)) (ahead self.old (group Product depth ∷ rest))
            (ahead self.new rest) }
        ensures no_longer { length self.new.rest ≤ length self.old.rest }
    {
        let mut left = self.unary(alloc, depth)?;
        'factors: while let Some(op) = self.factor_operator()? {
            let right = self.unary(alloc, depth)?;
            left = binary(alloc, op, left, right)?;
        }
        Ok(left)
    }

    #[cycle(expression)]
    fn sum(&mut self, alloc: Global, depth: usize) -> Result<Expr, Stop>
        ensures reads { (rest : List Need) → Gives result (λ e v.
            (expression_of e, v)) (ahead self.old (group Sum depth ∷ rest)) (ahead self.new rest) }
        ensures no_longer { length self.new.rest ≤ length self.old.rest }
    {
        let mut left = self.product(alloc, depth)?;
        'terms: while let Some(op) = self.term_operator()? {
            let right = self.product(alloc, depth)?;
            left = binary(alloc, op, left, right)?;
        }
        Ok(left)
    }

    #[cycle(expression)]
    fn whole(&mut self, alloc: Global, depth: usize) -> Result<Expr, Stop>
        ensures reads { (rest : List Need) → Gives result (λ e v.
            (expression_of e, v)) (ahead self.old (group Whole depth ∷ rest))
            (ahead self.new rest) }
        ensures no_longer { length self.new.rest ≤ length self.old.rest }
    {
        let left = self.sum(alloc, depth)?;
        match self.comparison()? {
            None => Ok(left),
            Some(op) => {
                let right = self.sum(alloc, depth)?;
                Ok(binary(alloc, op, left, right)?)
            }
        }
    }

    /// Whether an operator between the operands of a sum stands after the next token.
    fn operator_follows(&self) -> bool
        ensures factors { IsFalse result →
            choice Factors (first_terminal (behind_first (tokens_at self.now))) ≡ None }
        ensures terms { IsFalse result →
            choice Terms (first_terminal (behind_first (tokens_at self.now))) ≡ None }
    {
        let terminal = self.look_behind();
        multiplies(terminal) || adds(terminal)
    }

    /// Takes a number that is all of a sum, as it is of most.
    fn lone_number(&mut self) -> Option<Token>
        ensures found { IfSome result (λ t.
            (rest : List Need) → Moves (ahead self.old (group Sum 0 ∷ rest))
            (ahead self.new rest) (λ v. (Expression.Number (kind_number t.kind), v))) }
        ensures none { IfNone result ((rest : List Need) →
            Moves (ahead self.old (group Sum 0 ∷ rest))
            (ahead self.new (group Sum 0 ∷ rest)) (λ v. v)) }
        ensures no_longer { length self.new.rest ≤ length self.old.rest }
    {
        if !self.starts(Terminal::Number) {
            return None;
        }
        if self.operator_follows() {
            return None;
        }
        let token = self.bump();
        Some(token)
    }

    /// A sum that is an expression of its own.
    pub fn own_sum(&mut self, alloc: Global) -> Result<Expr, Stop>
        ensures reads { (rest : List Need) → Gives result (λ e v.
            (expression_of e, v)) (ahead self.old (fresh ∷ group Sum 0 ∷ rest))
            (ahead self.new rest) }
        ensures no_longer { length self.new.rest ≤ length self.old.rest }
    {
        self.operators = 0;
        if let Some(token) = self.lone_number() {
            return Ok(number(token.kind));
        }
        let sum = self.sum(alloc, 0)?;
        Ok(sum)
    }

    /// Two sums with a colon between them.
    pub fn two_sums(&mut self, alloc: Global) -> Result<(Expr, Expr), Stop>
        ensures reads { (rest : List Need) →
            Gives result (λ x v. (expression_of x.0, (expression_of x.1, v)))
            (ahead self.old (own_sum (mark Terminal.Colon ∷ own_sum rest))) (ahead self.new rest) }
        ensures no_longer { length self.new.rest ≤ length self.old.rest }
    {
        let min = self.own_sum(alloc)?;
        self.mark(Terminal::Colon)?;
        let max = self.own_sum(alloc)?;
        Ok((min, max))
    }

    /// An expression, which may be a comparison.
    pub fn own_expression(&mut self, alloc: Global) -> Result<Expr, Stop>
        ensures reads { (rest : List Need) → Gives result (λ e v.
            (expression_of e, v)) (ahead self.old (fresh ∷ group Whole 0 ∷ rest))
            (ahead self.new rest) }
        ensures no_longer { length self.new.rest ≤ length self.old.rest }
    {
        self.operators = 0;
        let whole = self.whole(alloc, 0)?;
        Ok(whole)
    }
}
