//! Operands of expressions, by their indexes.
ghost use Rattle.std.specs.Prelude.{◌≡◌, ◌<◌, [], ◌∷◌, map, IsSome, MatchOption};
ghost use Rattle.typing.specs.Places.{IsAt, operands_of, follow};

use grammar_core::{Expr, Named};

/// Returns the only operand, `a`, if the index is 0, else `None`.
fn only_operand_at<'a>(a: &'a Expr, at: usize) -> Option<&'a Expr>
    ensures item { IsAt (a.entry.now ∷ []) at result }
    ensures few { IsSome result → at < usize.MAX }
{
    if at == 0 { Some(a) } else { None }
}

/// Returns the operand at the index `at` of the two operands `a` and `b`, or `None` past the end.
fn operand_of_two<'a>(a: &'a Expr, b: &'a Expr, at: usize) -> Option<&'a Expr>
    ensures item { IsAt (a.entry.now ∷ b.entry.now ∷ []) at result }
    ensures few { IsSome result → at < usize.MAX }
{
    match at {
        0 => Some(a),
        1 => Some(b),
        _ => None,
    }
}

/// Returns the operand at the index `at` of the three operands `a`, `b` and `c`, or `None` past the end.
fn operand_of_three<'a>(a: &'a Expr, b: &'a Expr, c: &'a Expr, at: usize) -> Option<&'a Expr>
    ensures item { IsAt (a.entry.now ∷ b.entry.now ∷ c.entry.now ∷ []) at result }
    ensures few { IsSome result → at < usize.MAX }
{
    match at {
        0 => Some(a),
        1 => Some(b),
        2 => Some(c),
        _ => None,
    }
}

/// Returns the member at an index, or `None` past the end.
fn member_at<'a>(members: &'a [Expr], at: usize) -> Option<&'a Expr>
    ensures item { IsAt members.entry.now at result }
    ensures few { IsSome result → at < usize.MAX }
{
    if at < members.len() {
        Some(&members[at])
    } else {
        None
    }
}

/// Returns the value of the field at an index, or `None` past the end.
fn field_at<'a>(fields: &'a [Named<Expr>], at: usize) -> Option<&'a Expr>
    ensures item { IsAt (map (λ f. f.value) fields.entry.now) at result }
    ensures few { IsSome result → at < usize.MAX }
{
    if at < fields.len() {
        Some(&fields[at].value)
    } else {
        None
    }
}

/// Returns the operand of `expr` at the index `at`, or `None` past the last operand. Does not allocate.
///
/// The clause `few` lets a caller that got an operand go on to the next index without overflow.
pub fn operand<'a>(expr: &'a Expr, at: usize) -> Option<&'a Expr>
    ensures item { IsAt (operands_of expr.entry.now) at result }
    ensures few { IsSome result → at < usize.MAX }
{
    match expr {
        Expr::Literal(_) => None,
        Expr::Variable(_) => None,
        Expr::If(test, consequent, alternative) => {
            operand_of_three(test, consequent, alternative, at)
        }
        Expr::And(left, right) => operand_of_two(left, right, at),
        Expr::Or(left, right) => operand_of_two(left, right, at),
        Expr::Unary(_, operand) => only_operand_at(operand, at),
        Expr::Binary(_, left, right) => operand_of_two(left, right, at),
        Expr::Field(owner, _) => only_operand_at(owner, at),
        Expr::Has(owner, _) => only_operand_at(owner, at),
        Expr::Set(members) => member_at(members.as_slice(), at),
        Expr::Record(fields) => field_at(fields.as_slice(), at),
        Expr::UnaryCall(_, operand) => only_operand_at(operand, at),
        Expr::BinaryCall(_, left, right) => operand_of_two(left, right, at),
    }
}

/// Returns the expression to which a path, a list of indexes of operands, leads from `whole`, if it leads to one. Does
/// not allocate.
pub fn at_path<'a>(whole: &'a Expr, path: &[usize]) -> Option<&'a Expr>
    ensures { MatchOption result (follow path.now whole.entry.now ≡ None) (λ y. follow path.now whole.entry.now
        ≡ Some y.now) }
{
    let mut expr = whole;
    for at in path {
        match operand(expr, *at) {
            Some(operand) => expr = operand,
            None => return None,
        }
    }
    Some(expr)
}
