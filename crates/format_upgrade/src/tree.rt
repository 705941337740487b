//! Copies of expressions and of what holds them. The boxes of a copy lie elsewhere in memory, so
//! what is the same is the tree: what all parts hold.

ghost use Rattle.std.specs.Prelude.{◌≡◌, IfOk, Option, map, option_map};
ghost use Rattle.drawing_tree.specs.Expression.{Expression, expression_of};
ghost use Rattle.drawing_tree.specs.Tree as tree;

use crate::copy::{Copied, bytes};
use drawing_tree::{Assign, Conn, Expr, Formal, Item, RangeExpr, Term, WireStmt};
use scald_base::{List, NoMemory};
use std::alloc::Global;

/// What can be copied part by part.
pub trait Tree {
    /// The tree of what all parts hold.
    ghost Shape: { Type 0 };

    ghost shape: { Self → Self.Shape };

    /// The same tree in memory of its own.
    fn again(&self, alloc: Global) -> Result<Self, NoMemory>
        ensures { IfOk result (λ copy. Self.shape copy ≡ Self.shape self.now) };
}

/// Copies of all items, in order.
pub(crate) fn trees<T: Tree + Drop>(alloc: Global, items: &[T]) -> Result<List<T>, NoMemory>
    ensures { IfOk result (λ copies. map T.shape copies ≡ map T.shape items.now) }
{
    let mut copies = List::new(alloc);
    for item in items {
        copies.push(item.again(alloc)?)?;
    }
    Ok(copies)
}

impl<T: Tree> Tree for Option<T> {
    ghost Shape = { Option T.Shape };

    ghost shape = { λ o. option_map T.shape o };

    fn again(&self, alloc: Global) -> Result<Option<T>, NoMemory> {
        match self {
            Some(value) => Ok(Some(value.again(alloc)?)),
            None => Ok(None),
        }
    }
}

impl<T: Tree + Drop> Tree for Box<T> {
    ghost Shape = { T.Shape };

    ghost shape = { λ b. T.shape b.value };

    fn again(&self, alloc: Global) -> Result<Box<T>, NoMemory> {
        let same = T::again(self, alloc)?;
        Ok(Box::new(alloc, same)?)
    }
}

impl Tree for Expr {
    ghost Shape = { Expression };

    ghost shape = { expression_of };

    fn again(&self, alloc: Global) -> Result<Expr, NoMemory> {
        match self {
            Expr::Number(number) => Ok(Expr::Number(*number)),
            Expr::Param(name) => Ok(Expr::Param(bytes(alloc, name)?)),
            Expr::Negate(operand) => {
                let operand = Expr::again(operand, alloc)?;
                Ok(Expr::Negate(Box::new(alloc, operand)?))
            }
            Expr::Binary(op, left, right) => {
                let left = Expr::again(left, alloc)?;
                let right = Expr::again(right, alloc)?;
                let left = Box::new(alloc, left)?;
                let right = Box::new(alloc, right)?;
                Ok(Expr::Binary(*op, left, right))
            }
        }
    }
}

impl Tree for (Expr, Expr) {
    ghost Shape = { Expression × Expression };

    ghost shape = { tree.both_of };

    fn again(&self, alloc: Global) -> Result<(Expr, Expr), NoMemory> {
        Ok((self.0.again(alloc)?, self.1.again(alloc)?))
    }
}

impl Tree for RangeExpr {
    ghost Shape = { tree.Range };

    ghost shape = { tree.range_of };

    fn again(&self, alloc: Global) -> Result<RangeExpr, NoMemory> {
        Ok(RangeExpr {
            first: self.first.again(alloc)?,
            last: self.last.again(alloc)?,
        })
    }
}

impl Tree for Item {
    ghost Shape = { tree.Item };

    ghost shape = { tree.item_of };

    fn again(&self, alloc: Global) -> Result<Item, NoMemory> {
        match self {
            Item::Zero => Ok(Item::Zero),
            Item::One => Ok(Item::One),
            Item::Named(name, range) => Ok(Item::Named(name.copy(alloc)?, range.again(alloc)?)),
        }
    }
}

impl Tree for Term {
    ghost Shape = { tree.Term };

    ghost shape = { tree.term_of };

    fn again(&self, alloc: Global) -> Result<Term, NoMemory> {
        Ok(Term {
            minus: self.minus,
            item: self.item.again(alloc)?,
        })
    }
}

impl Tree for Conn {
    ghost Shape = { tree.Connection };

    ghost shape = { tree.connection_of };

    fn again(&self, alloc: Global) -> Result<Conn, NoMemory> {
        Ok(Conn {
            terms: trees(alloc, self.terms.as_slice())?,
            hold: self.hold,
            place: self.place,
        })
    }
}

impl Tree for Assign {
    ghost Shape = { tree.Assignment };

    ghost shape = { tree.assignment_of };

    fn again(&self, alloc: Global) -> Result<Assign, NoMemory> {
        Ok(Assign {
            name: bytes(alloc, &self.name)?,
            value: self.value.again(alloc)?,
        })
    }
}

impl Tree for WireStmt {
    ghost Shape = { tree.WireStatement };

    ghost shape = { tree.wire_of };

    fn again(&self, alloc: Global) -> Result<WireStmt, NoMemory> {
        Ok(WireStmt {
            name: self.name.copy(alloc)?,
            range: self.range.again(alloc)?,
            min: self.min.again(alloc)?,
            max: self.max.again(alloc)?,
            place: self.place,
        })
    }
}

impl Tree for Formal {
    ghost Shape = { tree.Formal };

    ghost shape = { tree.formal_of };

    fn again(&self, alloc: Global) -> Result<Formal, NoMemory> {
        Ok(Formal {
            base: bytes(alloc, &self.base)?,
            range: self.range.again(alloc)?,
        })
    }
}
