//! The order of expressions by their content other than operands.
ghost use Rattle.std.specs.Prelude.{◌≡◌};
ghost use Rattle.type_capabilities.specs.Order.{literal_rank, literal_cmp, unary_rank, unary_cmp, pattern_cmp};
ghost use Rattle.grammar_core.specs.Operators.{variable_rank, binary_rank, unary_call_rank, binary_call_rank};

use grammar_core::{Binary, BinaryCall, Literal, Pattern, Unary, UnaryCall, Variable};
use std::cmp::Ordering;

/// Returns the rank of a literal's kind.
fn literal_rank(literal: &Literal) -> u8
    ensures { result ≡ literal_rank literal.now }
{
    match literal {
        Literal::Boolean(_) => 0,
        Literal::Long(_) => 1,
        Literal::Text(_) => 2,
        Literal::Entity(_) => 3,
    }
}

/// Compares literals: by kind, then false before true, integers by value, strings by bytes, entities by uid.
pub(crate) fn compare_literals(one: &Literal, other: &Literal) -> Ordering
    ensures { result ≡ literal_cmp one.now other.now }
{
    match (one, other) {
        (Literal::Boolean(a), Literal::Boolean(b)) => a.cmp(b),
        (Literal::Long(a), Literal::Long(b)) => a.cmp(b),
        (Literal::Text(a), Literal::Text(b)) => a.cmp(b),
        (Literal::Entity(a), Literal::Entity(b)) => a.cmp(b),
        (a, b) => literal_rank(a).cmp(&literal_rank(b)),
    }
}

/// Returns the rank of a variable: its index in the declaration of `Variable`, from 0.
pub(crate) fn variable_rank(variable: Variable) -> u8
    ensures { result ≡ variable_rank variable }
{
    variable as u8
}

/// Returns the rank of an operator with one operand.
fn unary_rank(operator: &Unary) -> u8
    ensures { result ≡ unary_rank operator.now }
{
    match operator {
        Unary::Not => 0,
        Unary::Negate => 1,
        Unary::Like(_) => 2,
        Unary::Is(_) => 3,
    }
}

/// Compares patterns: by the number of their literal texts, then text by text.
#[tactic(auto, using(crate::proofs::Patterns::pattern_is))]
fn compare_patterns(one: &Pattern, other: &Pattern) -> Ordering
    ensures { result ≡ pattern_cmp one.now other.now }
{
    let (texts, last) = one.literals();
    let (others, other_last) = other.literals();
    let counts = texts.len().cmp(&others.len());
    let before = counts.then(texts.cmp(&others));
    before.then(last.cmp(other_last))
}

/// Compares operators with one operand: by rank, then by the pattern or the type.
pub(crate) fn compare_unary(one: &Unary, other: &Unary) -> Ordering
    ensures { result ≡ unary_cmp one.now other.now }
{
    match (one, other) {
        (Unary::Like(a), Unary::Like(b)) => compare_patterns(a, b),
        (Unary::Is(a), Unary::Is(b)) => a.cmp(b),
        (a, b) => unary_rank(a).cmp(&unary_rank(b)),
    }
}

/// Returns the rank of an operator with two operands: its index in the declaration of `Binary`, from 0.
pub(crate) fn binary_rank(operator: Binary) -> u8
    ensures { result ≡ binary_rank operator }
{
    operator as u8
}

/// Returns the rank of a call with one operand: its index in the declaration of `UnaryCall`, from 0.
pub(crate) fn unary_call_rank(called: UnaryCall) -> u8
    ensures { result ≡ unary_call_rank called }
{
    called as u8
}

/// Returns the rank of a call with two operands: its index in the declaration of `BinaryCall`, from 0.
pub(crate) fn binary_call_rank(called: BinaryCall) -> u8
    ensures { result ≡ binary_call_rank called }
{
    called as u8
}
