//! The values of expressions, and the numbers of ranges.

ghost use Rattle.std.specs.Prelude.{◌≡◌, Ok};
ghost use Rattle.std.specs.Option.{option_map};
ghost use Rattle.drawing_tree.specs.Expression.{expression_of};
ghost use Rattle.drawing_tree.specs.Tree.{range_of, written_range_of};
ghost use Rattle.macro_expander.specs.Terms.{valued, last_of, ends_of, written_ends as spec_written_ends, numbers_of, kind_of_fault as spec_kind};
ghost use Rattle.macro_expander.specs.Steps.{JudgedAt};

use drawing_tree::{Env, Expr, ExprFault, RangeExpr, WrittenRange, eval};
use scald_base::{List, Place, RefusalKind, Stop};
use std::alloc::Global;
use vector_names::{Indices, VectorFault, bits_of};

fn kind_of(fault: ExprFault) -> RefusalKind
    ensures { result ≡ spec_kind fault }
{
    match fault {
        ExprFault::Unknown => RefusalKind::UnknownName,
        ExprFault::Overflow => RefusalKind::Overflow,
        ExprFault::ZeroDivisor => RefusalKind::ZeroDivisor,
    }
}

/// A value, or its refusal at a place.
pub(crate) fn at<T: Drop>(place: Place, judged: Result<T, RefusalKind>) -> Result<T, Stop>
    ensures { JudgedAt place result judged }
{
    match judged {
        Ok(value) => Ok(value),
        Err(kind) => Err(Stop::refused(kind, place)),
    }
}

/// The value of an expression, or why it is refused.
pub fn value(expression: &Expr, env: &Env) -> Result<i64, RefusalKind>
    ensures { result ≡ valued env.now (expression_of expression.now) }
{
    match eval(expression, env) {
        Ok(value) => Ok(value),
        Err(fault) => Err(kind_of(fault)),
    }
}

fn last(written: &Option<Expr>, env: &Env, first: i64) -> Result<i64, RefusalKind>
    ensures { result ≡ last_of env.now (option_map expression_of written.now) first }
{
    match written {
        None => Ok(first),
        Some(expression) => value(expression, env),
    }
}

fn ends(range: &RangeExpr, env: &Env) -> Result<(i64, i64), RefusalKind>
    ensures { result ≡ ends_of env.now (range_of range.now) }
{
    let first = value(&range.first, env)?;
    let last = last(&range.last, env, first)?;
    Ok((first, last))
}

/// The first and the last number of a range, if one is written, or why it is refused.
pub fn written_ends(range: &WrittenRange, env: &Env) -> Result<Option<(i64, i64)>, RefusalKind>
    ensures { result ≡ spec_written_ends env.now (written_range_of range.now) }
{
    match range {
        None => Ok(None),
        Some(range) => Ok(Some(ends(range, env)?)),
    }
}

fn zero(alloc: Global, place: Place) -> Result<Indices, Stop>
    ensures { JudgedAt place result (numbers_of None) }
{
    Ok(List::from_slice(alloc, &[0])?)
}

/// The numbers of a range with these ends, or 0 if none is written.
pub(crate) fn numbers(
    alloc: Global,
    ends: Option<(i64, i64)>,
    place: Place,
) -> Result<Indices, Stop>
    ensures { JudgedAt place result (numbers_of ends) }
{
    match ends {
        None => zero(alloc, place),
        Some((first, last)) => match bits_of(alloc, first, last) {
            Ok(numbers) => Ok(numbers),
            Err(VectorFault::NoMemory) => Err(Stop::NoMemory),
            Err(_) => Err(Stop::refused(RefusalKind::BadRange, place)),
        },
    }
}
