//! Labels that are seen to differ by their order.

ghost use Rattle.std.specs.Prelude.{◌≡◌, ℕ, IsTrue, IfSome};
ghost use Rattle.std.specs.declared.cmp.Ordering.TheVariants.{Less};
ghost use Rattle.drawing_tree.specs.Tree.{statement_of, statements_of};
ghost use Rattle.drawing_grammar.specs.DoubleNames.{labels, statement_labels};
ghost use Rattle.drawing_reader.specs.Ascending.{label_cmp, Climbs, AreFresh};

use drawing_tree::Stmt;
use std::cmp::Ordering;

/// Where a label stands against another: the shorter comes first, and of one length the one whose
/// bytes come first.
fn order_of_labels(a: &[u8], b: &[u8]) -> Ordering
    ensures { result ≡ label_cmp a.now b.now }
{
    a.len().cmp(&b.len()).then(a.cmp(b))
}

/// Whether a label comes after the last one.
fn is_behind(last: &[u8], label: &[u8]) -> bool
    ensures { IsTrue result → label_cmp last.now label.now ≡ Less }
{
    match order_of_labels(last, label) {
        Ordering::Less => true,
        _ => false,
    }
}

/// The label of a statement, if it comes after the last one; of a statement without labels the
/// last one again. An IF and a FOR have no answer.
fn climbed<'a>(last: &'a [u8], statement: &'a Stmt) -> Option<&'a [u8]>
    ensures { IfSome result (λ next.
        (scope : ℕ) → Climbs scope last.now next.now
        (statement_labels scope (statement_of statement.now))) }
{
    match statement {
        Stmt::Use(u) => {
            let label = u.label.as_slice();
            if !is_behind(last, label) {
                return None;
            }
            Some(label)
        }
        Stmt::Wire(_) => Some(last),
        Stmt::If(_) | Stmt::For(_) => None,
    }
}

/// Whether the labels of statements are seen to differ by their order alone: each comes after the
/// one before, as numbered labels do. It needs no allocation.
pub fn are_ascending(statements: &[Stmt]) -> bool
    ensures { IsTrue result → (scope : ℕ) →
        AreFresh scope (labels scope (statements_of statements.now)) }
{
    let mut last: &[u8] = &[];
    'statements: for statement in statements {
        let Some(next) = climbed(last, statement) else {
            return false;
        };
        last = next;
    }
    true
}
