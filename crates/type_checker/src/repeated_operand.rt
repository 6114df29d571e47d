//! The typing of `a is T in b`, which the parser rewrites to `a is T && a in b`: `a` is typed once.
ghost use Rattle.std.specs.Prelude.{◌≡◌, IsTrue, IfSome, MatchResult};
ghost use Rattle.grammar_core.specs.declared.expr.Expr.{Expr};
ghost use Rattle.grammar_core.specs.declared.expr.Expr.TheVariants as form;
ghost use Rattle.typing.specs.Types as types;
ghost use Rattle.typing.specs.Rows.{MayBeTrue};
ghost use Rattle.typing.specs.Gained.{CapabilityList};
ghost use Rattle.typing.specs.Literals.{UndecidedByLiterals};
ghost use Rattle.typing.specs.Typing.{Types};
ghost use Rattle.type_checker.specs.Views.{static_view, typing_environment};
ghost use Rattle.type_checker.specs.inner.Judged.{Judged};
ghost use Rattle.type_checker.specs.inner.RepeatedOperand.{RepeatsTestedOperand, MayBeTrueResult};

use crate::environment::TypingEnvironment;
use crate::equal::same_expr;
use crate::literals::decided_by_literals;
use crate::operators::binary_type;
use crate::static_type::{Leaf, StaticType};
use crate::typed::{Typed, typed_row};
use grammar_core::{Binary, Expr, Unary};
use std::alloc::Global;
use typing::TypeFault;
use values::TypeName;

/// Returns whether a test has a type, and a value of this type may be true.
fn result_may_be_true(test: &Result<Typed<'_>, TypeFault>) -> bool
    ensures { IsTrue result → MayBeTrueResult test.now }
{
    match test {
        Ok(typed) => typed.kind.may_be_true(),
        Err(_) => false,
    }
}

/// Returns whether the result of an operator is not decided by literals.
fn is_undecided_by_literals<'a>(
    env: TypingEnvironment<'a>,
    operator: Binary,
    left: &'a Expr,
    right: &'a Expr,
) -> bool
    ensures { IsTrue result → UndecidedByLiterals (typing_environment env.entry) operator left.now right.now }
{
    match decided_by_literals(env, operator, left, right) {
        Some(_) => false,
        None => true,
    }
}

/// Returns whether `again` equals the tested `operand`, the test may be true, and literals do not decide the operator
/// on `again` and `other`.
fn repeats_tested_operand<'a>(
    env: TypingEnvironment<'a>,
    test: &Result<Typed<'a>, TypeFault>,
    operand: &'a Expr,
    operator: Binary,
    again: &'a Expr,
    other: &'a Expr,
) -> bool
    ensures { IsTrue result → (operand.now ≡ again.now) × MayBeTrueResult test.now
        × UndecidedByLiterals (typing_environment env.entry) operator again.now other.now }
{
    if !result_may_be_true(test) {
        return false;
    }
    if !is_undecided_by_literals(env, operator, again, other) {
        return false;
    }
    same_expr(operand, again)
}

/// Returns the entity type `T` if `left`, the left side of `&&`, is a test `a is T` and `a` need not be typed again:
/// the test may be true, the right side is an operator whose first operand `again` equals `a`, and literals do not
/// decide this operator. Else returns `None`.
#[tactic(auto, using(crate::proofs::AskedLemmas::asks_again))]
pub(crate) fn tested_operand_type<'a>(
    env: TypingEnvironment<'a>,
    test: &Result<Typed<'a>, TypeFault>,
    left: &'a Expr,
    operator: Binary,
    again: &'a Expr,
    other: &'a Expr,
) -> Option<&'a TypeName>
    ensures { IfSome result (λ n. RepeatsTestedOperand (typing_environment env.entry) left.now test.now operator
        again.now other.now n.now) }
{
    match left {
        Expr::Unary(Unary::Is(name), operand) => {
            if repeats_tested_operand(env, test, operand, operator, again, other) {
                Some(name)
            } else {
                None
            }
        }
        _ => None,
    }
}

/// Returns the entity type with this name.
fn of_entities<'a>(name: &'a TypeName) -> StaticType<'a>
    ensures { static_view result ≡ types.entity_type name.entry.now }
{
    StaticType::Leaf(Leaf::Entity(name))
}

/// Returns the judgement on an operator whose result is not decided by literals and whose first operand is an entity of
/// the type `name`, given the judgement `other` on its second operand.
pub(crate) fn repeated_operand_typed<'a>(
    alloc: Global,
    env: TypingEnvironment<'a>,
    operator: Binary,
    name: &'a TypeName,
    other: Result<Typed<'a>, TypeFault>,
) -> Result<Typed<'a>, TypeFault>
    ensures { let E = typing_environment env.entry in
        (K L after : CapabilityList) (a b : Expr) → UndecidedByLiterals E operator a b
        → Types E K a (types.entity_type name.entry.now) L → Judged E K b other.entry after
        → Judged E K (form.Binary operator a b) result after }
{
    let other = match other {
        Ok(other) => other,
        Err(fault) => return Err(fault),
    };
    typed_row(
        alloc,
        binary_type(alloc, env, operator, of_entities(name), other.kind),
    )
}
