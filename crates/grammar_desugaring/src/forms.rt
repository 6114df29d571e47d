//! Core expressions made of their operands. An operand whose building may have failed is passed as a result; the
//! functions return its error.
ghost use Rattle.std.specs.Prelude.{◌≡◌, IfOk};
ghost use Rattle.grammar_syntax.specs.Lexing.{spelling_of};
ghost use Rattle.grammar_core.specs.declared.operator.Unary.TheVariants as unary;
ghost use Rattle.grammar_core.specs.declared.operator.Binary.TheVariants as binary;
ghost use Rattle.grammar_core.specs.declared.expr.Expr.TheVariants as core;
ghost use Rattle.grammar_syntax.specs.Patterns.{patterns};
ghost use Rattle.grammar_desugaring.specs.Strings.{pattern_of};
ghost use Rattle.grammar_desugaring.specs.Meaning.{path_name, name_of};
ghost use Rattle.grammar_desugaring.specs.Core as spec;
ghost use Rattle.grammar_desugaring.specs.inner.Giving.{Gave};
ghost use Rattle.grammar_desugaring.specs.inner.WellFormed.{TokenIn, KeyIn, PathIn};

use crate::pairs::{all_three, both};
use crate::words::{name, path_type, pattern, sign};
use grammar_core::{Binary, Expr, Named, Unary};
use grammar_syntax::{Comparison, KeyTree, PathTree, Sign, Token};
use plain::{NoMemory, Text, pair_with};
use std::alloc::Global;

/// The operator that joins the operands of a chain.
#[derive(Clone, Copy)]
pub(crate) enum Chain {
    Product,
    /// `+` or `-`: the sign of the next term.
    Sum(Sign),
    And,
    Or,
}

/// Returns `owner.name`, where the name is that of `key`.
pub(crate) fn field(alloc: Global, text: &str, owner: Expr, key: KeyTree) -> Result<Expr, NoMemory>
    requires { KeyIn text.now key }
    ensures { IfOk result (λ e. e ≡ core.Field owner (name_of text.entry.now key)) }
{
    let (owner, name) = both(Ok(owner), name(alloc, text, key))?;
    Expr::field(alloc, owner, name)
}

/// Returns `owner has name`, where the name is that of `key`.
pub(crate) fn has(
    alloc: Global,
    text: &str,
    owner: Result<Expr, NoMemory>,
    key: KeyTree,
) -> Result<Expr, NoMemory>
    requires { KeyIn text.now key }
    ensures { IfOk result (λ e. Gave owner (λ a. e ≡ core.Has a (name_of text.now key))) }
{
    let (owner, name) = both(owner, name(alloc, text, key))?;
    Expr::has(alloc, owner, name)
}

/// Returns `operand like pattern`, where the pattern is the string at `token`.
pub(crate) fn like(
    alloc: Global,
    text: &str,
    operand: Result<Expr, NoMemory>,
    token: Token,
) -> Result<Expr, NoMemory>
    requires { TokenIn text.now patterns token }
    ensures { IfOk result (λ e. Gave operand
        (λ a. e ≡ core.Unary (unary.Like (pattern_of (spelling_of text.now token))) a)) }
{
    let (operand, pattern) = both(operand, pattern(alloc, text, token))?;
    Expr::unary(alloc, Unary::Like(pattern), operand)
}

/// Returns `operand is path`.
pub(crate) fn is(
    alloc: Global,
    text: &str,
    operand: Result<Expr, NoMemory>,
    path: &PathTree,
) -> Result<Expr, NoMemory>
    requires { PathIn text.now path.now }
    ensures { IfOk result (λ e. Gave operand (λ a. e ≡ core.Unary (unary.Is (path_name text.now path.now)) a)) }
{
    let (operand, type_name) = both(operand, path_type(alloc, text, path))?;
    Expr::unary(alloc, Unary::Is(type_name), operand)
}

/// Returns `operand is path in ancestor`.
pub(crate) fn is_in(
    alloc: Global,
    text: &str,
    operands: Result<(Expr, Expr), NoMemory>,
    path: &PathTree,
) -> Result<Expr, NoMemory>
    requires { PathIn text.now path.now }
    ensures { IfOk result
        (λ e. Gave operands
        (λ pair. e
        ≡ core.And (core.Unary (unary.Is (path_name text.now path.now)) pair.0)
        (core.Binary binary.In pair.0 pair.1))) }
{
    let (operands, type_name) = both(operands, path_type(alloc, text, path))?;
    let (operand, ancestor) = operands;
    Expr::is_in(alloc, operand, type_name, ancestor)
}

/// Returns an operator applied to one operand.
pub(crate) fn apply(
    alloc: Global,
    operator: Unary,
    operand: Result<Expr, NoMemory>,
) -> Result<Expr, NoMemory>
    ensures { IfOk result (λ e. Gave operand (λ a. e ≡ core.Unary operator a)) }
{
    let operand = operand?;
    Expr::unary(alloc, operator, operand)
}

/// Returns `if test then consequent else alternative`.
pub(crate) fn if_then_else(
    alloc: Global,
    test: Result<Expr, NoMemory>,
    consequent: Result<Expr, NoMemory>,
    alternative: Result<Expr, NoMemory>,
) -> Result<Expr, NoMemory>
    ensures { IfOk result
        (λ e. Gave test (λ a. Gave consequent (λ b. Gave alternative (λ c. e ≡ core.If a b c)))) }
{
    let (test, consequent, alternative) = all_three(test, consequent, alternative)?;
    Expr::if_then_else(alloc, test, consequent, alternative)
}

/// Returns the field `name: value`.
pub(crate) fn named(
    name: Result<Text, NoMemory>,
    value: Result<Expr, NoMemory>,
) -> Result<Named<Expr>, NoMemory>
    ensures { IfOk result
        (λ f. Gave name (λ n. Gave value (λ e. f ≡ record { name = n; value = e }))) }
{
    let (name, value) = both(name, value)?;
    Ok(Named { name, value })
}

/// Returns a comparison: `!=`, `>` and `>=` are the negations of `==`, `<=` and `<`.
pub(crate) fn compare(
    alloc: Global,
    operator: Comparison,
    operands: Result<(Expr, Expr), NoMemory>,
) -> Result<Expr, NoMemory>
    ensures { IfOk result (λ e. Gave operands (λ pair. e ≡ spec.compared operator pair.0 pair.1)) }
{
    let (left, right) = operands?;
    match operator {
        Comparison::Less => Expr::binary(alloc, Binary::Less, left, right),
        Comparison::LessOrEqual => Expr::binary(alloc, Binary::LessOrEqual, left, right),
        Comparison::Greater => Expr::greater(alloc, left, right),
        Comparison::GreaterOrEqual => Expr::greater_or_equal(alloc, left, right),
        Comparison::Equal => Expr::binary(alloc, Binary::Equal, left, right),
        Comparison::NotEqual => Expr::not_equal(alloc, left, right),
        Comparison::In => Expr::binary(alloc, Binary::In, left, right),
    }
}

/// Returns the chain `left` joined with its next operand, `right`.
pub(crate) fn join_next(
    alloc: Global,
    chain: Chain,
    left: Expr,
    right: Result<Expr, NoMemory>,
) -> Result<Expr, NoMemory>
    ensures { IfOk result (λ e. Gave right (λ b. e ≡ spec.joined_by chain left b)) }
{
    let (left, right) = pair_with(left, right)?;
    match chain {
        Chain::Product => Expr::binary(alloc, Binary::Multiply, left, right),
        Chain::Sum(before) => Expr::binary(alloc, sign(before), left, right),
        Chain::And => Expr::and(alloc, left, right),
        Chain::Or => Expr::or(alloc, left, right),
    }
}
