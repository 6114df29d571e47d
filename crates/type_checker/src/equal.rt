//! Tests of two expressions for equality, which do not allocate.
ghost use Rattle.std.specs.Prelude.{◌≡◌, IsTrue, IsSomeAnd};

use grammar_core::Expr;
use type_capabilities::compare;

/// Returns whether two expressions are equal. They are compared node by node, which is much cheaper than typing one of
/// them.
pub(crate) fn same_expr(one: &Expr, other: &Expr) -> bool
    ensures { IsTrue result → one.now ≡ other.now }
{
    compare(one, other).is_eq()
}

/// Returns whether an expression equals the previous one, `before`; false without a previous one.
pub(crate) fn repeats(expr: &Expr, before: Option<&Expr>) -> bool
    ensures { IsTrue result → IsSomeAnd before.entry (λ b. b.now ≡ expr.now) }
{
    match before {
        Some(one) => same_expr(one, expr),
        None => false,
    }
}
