//! Names that a drawing declares twice.

ghost use Rattle.std.specs.Prelude.{◌≡◌, ◌↔◌, ◌++◌, [], ◌∷◌, map, IsTrue, Contains, MatchResult};
ghost use Rattle.drawing_tree.specs.Tree.{assignment_of, formal_of, statements_of, statement_of, if_of, for_of, macro_of};
ghost use Rattle.drawing_grammar.specs.DoubleNames.{key, declaration, constants, parameters, formals, labels, statement_labels, head_declared, macros_declared, declared, primitives, Declares, IsStopAt, IsDistinct, IsDoubleStop};

use crate::ascending::are_ascending;
use crate::constants::Constants;
use crate::declared::Declared;
use drawing_grammar::{Head, Kind};
use drawing_tree::{Assign, ForStmt, Formal, IfStmt, MacroDef, MacroDefs, Stmt};
use element_kinds::is_kind_name;
use indexmap::IndexSet;
use scald_base::{Place, RefusalKind, Stop};
use std::alloc::Global;
use std::marker::Model;

/// What has been declared, the primitives among it.
#[derive(Drop)]
struct Declarations<'a> {
    seen: IndexSet<Declared<'a>>,
}

impl<'a> Model for Declarations<'a> {
    ghost use Rattle.std.specs.Prelude.{List, map, ◌++◌};
    ghost use Rattle.drawing_grammar.specs.DoubleNames.{Key, primitives};
    ghost use Rattle.drawing_reader.specs.Keys.{key_of};

    ghost Value = { List Key };

    ghost view = { λ d. primitives ++ map key_of d.seen.keys };
}

/// Whether a declaration is one that each drawing has.
fn is_taken(scope: usize, kind: Kind, name: &[u8]) -> bool
    ensures { IsTrue result ↔ Contains primitives (key scope kind name.now) }
{
    if scope != 0 {
        return false;
    }
    match kind {
        Kind::Macro => is_kind_name(name),
        _ => false,
    }
}

impl<'a> Declarations<'a> {
    fn new(alloc: Global) -> Declarations<'a>
        ensures { result ≡ primitives }
    {
        Declarations {
            seen: IndexSet::new(alloc),
        }
    }

    /// Takes a declaration, or refuses it at its place if it has been declared before.
    fn declare(
        &mut self,
        scope: usize,
        kind: Kind,
        name: &'a [u8],
        place: Place,
    ) -> Result<(), Stop>
        ensures { MatchResult result (λ _.
            Declares self.old self.new (declaration scope kind name.now place ∷ []))
            (IsStopAt self.old (declaration scope kind name.now place ∷ [])) }
    {
        let seen = &mut self.seen;
        if is_taken(scope, kind, name) {
            return Err(Stop::refused(RefusalKind::DoubleName, place));
        }
        let Ok((_, is_new)) = seen.insert_full(Declared { scope, kind, name }) else {
            return Err(Stop::NoMemory);
        };
        if !is_new {
            return Err(Stop::refused(RefusalKind::DoubleName, place));
        }
        Ok(())
    }

    /// Takes constants, each at the place beside it.
    fn constants(&mut self, consts: &'a [Assign], places: &[Place]) -> Result<(), Stop>
        ensures { MatchResult result (λ _.
            Declares self.old self.new (constants (map assignment_of consts.now) places.now))
            (IsStopAt self.old (constants (map assignment_of consts.now) places.now)) }
    {
        let mut rest = places;
        'consts: for constant in consts {
            let Some((place, more)) = rest.split_first() else {
                return Ok(());
            };
            self.declare(0, Kind::Constant, constant.name.as_slice(), *place)?;
            rest = more;
        }
        Ok(())
    }

    /// Takes parameters, each at the place beside it.
    fn parameters(
        &mut self,
        scope: usize,
        params: &'a [Assign],
        places: &[Place],
    ) -> Result<(), Stop>
        ensures { MatchResult result (λ _.
            Declares self.old self.new (parameters scope (map assignment_of params.now) places.now))
            (IsStopAt self.old (parameters scope (map assignment_of params.now) places.now)) }
    {
        let mut rest = places;
        'params: for param in params {
            let Some((place, more)) = rest.split_first() else {
                return Ok(());
            };
            self.declare(scope, Kind::Parameter, param.name.as_slice(), *place)?;
            rest = more;
        }
        Ok(())
    }

    /// Takes formals, each at the place beside it.
    fn formals(&mut self, scope: usize, signals: &'a [Formal], places: &[Place]) -> Result<(), Stop>
        ensures { MatchResult result (λ _.
            Declares self.old self.new (formals scope (map formal_of signals.now) places.now))
            (IsStopAt self.old (formals scope (map formal_of signals.now) places.now)) }
    {
        let mut rest = places;
        'signals: for signal in signals {
            let Some((place, more)) = rest.split_first() else {
                return Ok(());
            };
            self.declare(scope, Kind::Formal, signal.base.as_slice(), *place)?;
            rest = more;
        }
        Ok(())
    }

    /// Takes the label of a use, or those inside of an IF or a FOR.
    #[cycle(labels)]
    #[tactic(auto, using(crate::proofs::Labels::labels_by_kind))]
    fn statement(&mut self, scope: usize, statement: &'a Stmt) -> Result<(), Stop>
        ensures { MatchResult result (λ _.
            Declares self.old self.new (statement_labels scope (statement_of statement.now)))
            (IsStopAt self.old (statement_labels scope (statement_of statement.now))) }
    {
        match statement {
            Stmt::Use(u) => self.declare(scope, Kind::Label, u.label.as_slice(), u.place),
            Stmt::Wire(_) => Ok(()),
            Stmt::If(choice) => self.choice(scope, choice),
            Stmt::For(repeated) => self.repeated(scope, repeated),
        }
    }

    /// Takes the labels inside of an IF.
    #[cycle(labels)]
    fn choice(&mut self, scope: usize, choice: &'a IfStmt) -> Result<(), Stop>
        ensures { MatchResult result (λ _.
            Declares self.old self.new (statement_labels scope (if_of choice.now)))
            (IsStopAt self.old (statement_labels scope (if_of choice.now))) }
    {
        self.statements(scope, choice.yes.as_slice())?;
        match &choice.no {
            None => Ok(()),
            Some(otherwise) => self.statements(scope, otherwise.as_slice()),
        }
    }

    /// Takes the labels inside of a FOR.
    #[cycle(labels)]
    fn repeated(&mut self, scope: usize, repeated: &'a ForStmt) -> Result<(), Stop>
        ensures { MatchResult result (λ _.
            Declares self.old self.new (statement_labels scope (for_of repeated.now)))
            (IsStopAt self.old (statement_labels scope (for_of repeated.now))) }
    {
        self.statements(scope, repeated.body.as_slice())
    }

    /// Takes the labels of statements.
    #[cycle(labels)]
    fn statements(&mut self, scope: usize, statements: &'a [Stmt]) -> Result<(), Stop>
        ensures { MatchResult result (λ _.
            Declares self.old self.new (labels scope (statements_of statements.now)))
            (IsStopAt self.old (labels scope (statements_of statements.now))) }
    {
        'statements: for statement in statements {
            self.statement(scope, statement)?;
        }
        Ok(())
    }

    /// Takes a macro, and what its head declares.
    fn head(&mut self, scope: usize, definition: &'a MacroDef, head: &Head) -> Result<(), Stop>
        ensures { MatchResult result (λ _.
            Declares self.old self.new (head_declared scope (macro_of definition.now) head.now))
            (IsStopAt self.old (head_declared scope (macro_of definition.now) head.now)) }
    {
        self.declare(0, Kind::Macro, definition.name.as_slice(), definition.place)?;
        self.parameters(
            scope,
            definition.params.as_slice(),
            head.parameters.as_slice(),
        )?;
        self.formals(scope, definition.ins.as_slice(), head.ins.as_slice())?;
        self.formals(scope, definition.outs.as_slice(), head.outs.as_slice())
    }

    /// Takes a macro with its body.
    fn definition(
        &mut self,
        scope: usize,
        definition: &'a MacroDef,
        head: &Head,
    ) -> Result<(), Stop>
        ensures { MatchResult result (λ _.
            Declares self.old self.new (head_declared scope (macro_of definition.now) head.now
            ++ labels scope (macro_of definition.now).body)) (IsStopAt self.old
            (head_declared scope (macro_of definition.now) head.now
            ++ labels scope (macro_of definition.now).body)) }
    {
        self.head(scope, definition, head)?;
        self.statements(scope, definition.body.as_slice())
    }

    /// Takes all macros, each with the places of its head.
    fn definitions(&mut self, definitions: &'a [MacroDef], heads: &[Head]) -> Result<(), Stop>
        ensures { MatchResult result (λ _.
            Declares self.old self.new (macros_declared 0 (map macro_of definitions.now) heads.now))
            (IsStopAt self.old (macros_declared 0 (map macro_of definitions.now) heads.now)) }
    {
        let mut rest = heads;
        let mut scope = 0;
        'definitions: for definition in definitions {
            let Some((head, more)) = rest.split_first() else {
                return Ok(());
            };
            self.definition(scope, definition, head)?;
            rest = more;
            scope += 1;
        }
        Ok(())
    }
}

/// Whether nothing is declared twice: a constant of another's name, a macro whose name another
/// macro or a primitive has, a parameter or a formal's base twice in a macro, a label twice in a
/// body. `DoubleName` comes at the first name of the text that repeats.
pub fn distinct_names(
    alloc: Global,
    consts: &Constants,
    macros: &MacroDefs,
    heads: &[Head],
    body: &[Stmt],
) -> Result<(), Stop>
    ensures { MatchResult result (λ _.
        IsDistinct (declared (map assignment_of consts.now.consts) consts.now.name_places
        (map macro_of macros.now) heads.now (statements_of body.now)))
        (IsDoubleStop (declared (map assignment_of consts.now.consts) consts.now.name_places
        (map macro_of macros.now) heads.now (statements_of body.now))) }
{
    let mut declarations = Declarations::new(alloc);
    declarations.constants(consts.consts.as_slice(), consts.name_places.as_slice())?;
    declarations.definitions(macros.as_slice(), heads)?;
    // No memory is taken for labels that are seen to differ by their order alone, as most are if
    // there are many.
    if are_ascending(body) {
        return Ok(());
    }
    declarations.statements(macros.len(), body)
}
