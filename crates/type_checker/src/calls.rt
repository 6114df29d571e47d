//! The types of calls with one operand.
ghost use Rattle.std.specs.Prelude.{◌≡◌, ◌≢◌, ◌↔◌, ℕ, List, IsTrue, MatchOption, MatchResult, true, false};
ghost use Rattle.grammar_core.specs.declared.leaf.Literal.TheVariants as literal;
ghost use Rattle.grammar_core.specs.declared.operator.UnaryCall.TheVariants as unary_call;
ghost use Rattle.grammar_core.specs.declared.expr.Expr.TheVariants as form;
ghost use Rattle.typing.specs.Types as types;
ghost use Rattle.typing.specs.Literals.{ReadsLiteral};
ghost use Rattle.type_checker.specs.Views.{static_view, leaf_view};
ghost use Rattle.type_checker.specs.inner.Judged.{CallTyped};

use crate::operators::address_test_type;
use crate::static_type::{Leaf, StaticType};
use grammar_core::{Expr, Literal, UnaryCall};
use plain::Text;
use typing::TypeFault;
use values::{Decimal, IpNet};

/// Returns the string of a string literal, or `None` for another expression.
fn as_text(expr: &Expr) -> Option<&Text>
    ensures { MatchOption result ((t : List ℕ) → expr.now ≢ form.Literal (literal.Text t))
        (λ t. expr.now ≡ form.Literal (literal.Text t.now)) }
{
    match expr {
        Expr::Literal(Literal::Text(content)) => Some(content),
        _ => None,
    }
}

/// Returns whether an expression is a string literal that denotes a decimal.
fn is_decimal(expr: &Expr) -> bool
    ensures { IsTrue result ↔ ReadsLiteral unary_call.Decimal expr.now types.decimal_type }
{
    match as_text(expr) {
        Some(text) => match Decimal::parse(text.as_str()) {
            Some(_) => true,
            None => false,
        },
        None => false,
    }
}

/// Returns whether an expression is a string literal that denotes an IP address or range.
fn is_network(expr: &Expr) -> bool
    ensures { IsTrue result ↔ ReadsLiteral unary_call.Ip expr.now types.ipaddr_type }
{
    match as_text(expr) {
        Some(text) => match IpNet::parse(text.as_str()) {
            Some(_) => true,
            None => false,
        },
        None => false,
    }
}

/// Returns the extension type `leaf` if `is_literal` is true, else `BadExtensionLiteral`.
fn if_literal<'a>(is_literal: bool, leaf: Leaf<'a>) -> Result<StaticType<'a>, TypeFault>
    ensures { MatchResult result (λ t. (is_literal ≡ true) × (static_view t ≡ leaf_view leaf.entry))
        (λ f. (is_literal ≡ false) × (f ≡ TypeFault.BadExtensionLiteral)) }
{
    if is_literal {
        Ok(StaticType::Leaf(leaf))
    } else {
        Err(TypeFault::BadExtensionLiteral)
    }
}

/// Returns the type of a call, given its operand and the operand's type `kind`. Returns `BadExtensionLiteral` if `ip`
/// or `decimal` has no literal of its grammar, and `Unexpected` if a test of an IP address has an operand of another
/// type.
pub(crate) fn unary_call_type<'a>(
    called: UnaryCall,
    operand: &Expr,
    kind: StaticType<'a>,
) -> Result<StaticType<'a>, TypeFault>
    ensures { CallTyped called operand.now (static_view kind.entry) result }
{
    match called {
        UnaryCall::Ip => if_literal(is_network(operand), Leaf::Ipaddr),
        UnaryCall::Decimal => if_literal(is_decimal(operand), Leaf::Decimal),
        UnaryCall::IsIpv4 | UnaryCall::IsIpv6 | UnaryCall::IsLoopback | UnaryCall::IsMulticast =>
            address_test_type(kind),
    }
}
