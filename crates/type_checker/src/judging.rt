//! The judgement on an expression: its type with the capabilities that it gains, or its error, by recursion.
ghost use Rattle.std.specs.Prelude.{map};
ghost use Rattle.grammar_core.specs.declared.expr.Expr.{Expr};
ghost use Rattle.grammar_core.specs.declared.expr.Expr.TheVariants as form;
ghost use Rattle.typing.specs.Gained.{CapabilityList};
ghost use Rattle.typing.specs.Literals.{UndecidedByLiterals};
ghost use Rattle.type_checker.specs.Views.{typing_environment};
ghost use Rattle.type_capabilities.specs.CapabilityList.{capabilities};
ghost use Rattle.type_checker.specs.inner.Judged.{Judged, JudgedUnder, JudgedEach, JudgedMembers, ThenJudged};

use crate::branching::{and_typed, branches, or_behind_false, or_typed};
use crate::environment::TypingEnvironment;
use crate::equal::repeats;
use crate::finishing::{
    binary_typed, call_typed, field_typed, has_typed, put_type, record_typed, set_typed,
    unary_call_typed, unary_typed,
};
use crate::known::know_too;
use crate::literal_types::literal_type;
use crate::literals::decided_by_literals;
use crate::repeated_operand::{repeated_operand_typed, tested_operand_type};
use crate::static_type::{BooleanType, StaticType};
use crate::typed::{Then, Typed, both, gained_too, is_right_checked, only, plain, truth_type};
use grammar_core::{Binary, BinaryCall, Expr, Named};
use plain::{Items, Shared};
use std::alloc::Global;
use type_capabilities::{Capabilities, Capability};
use typing::TypeFault;

/// Returns the judgement on an expression under the capabilities on the stack `known`, which is unchanged if the result
/// is a type.
#[cycle(judge)]
pub(crate) fn type_of<'a>(
    alloc: Global,
    expr: &'a Expr,
    env: TypingEnvironment<'a>,
    known: &mut Capabilities<'a>,
) -> Result<Typed<'a>, TypeFault>
    ensures { Judged (typing_environment env.entry) known.old expr.entry.now result known.new }
{
    match expr {
        Expr::Literal(literal) => Ok(plain(alloc, literal_type(literal))),
        Expr::Variable(variable) => Ok(plain(alloc, env.variable_type(*variable))),
        Expr::If(test, consequent, alternative) => {
            let test = type_of(alloc, test, env, known);
            let then = type_then(alloc, consequent, env, known, test);
            type_else(alloc, alternative, env, known, then)
        }
        Expr::And(left, right) => type_and(alloc, left, right, env, known),
        Expr::Or(left, right) => type_or(alloc, left, right, env, known),
        Expr::Unary(operator, operand) => {
            let operand = type_of(alloc, operand, env, known);
            unary_typed(alloc, operator, operand)
        }
        Expr::Binary(operator, left, right) => {
            type_binary(alloc, *operator, left, right, env, known)
        }
        Expr::Field(owner, name) => {
            let typed = type_of(alloc, owner, env, known);
            field_typed(alloc, env, known, owner, name.as_str(), typed)
        }
        Expr::Has(owner, name) => {
            let typed = type_of(alloc, owner, env, known);
            has_typed(alloc, env, known, owner, name.as_str(), typed)
        }
        Expr::Set(members) => set_typed(alloc, types_of(alloc, members, env, known)),
        Expr::Record(fields) => {
            let types = types_of_fields(alloc, fields, env, known);
            record_typed(alloc, fields.as_slice(), types)
        }
        Expr::UnaryCall(called, operand) => {
            let typed = type_of(alloc, operand, env, known);
            unary_call_typed(alloc, *called, operand, typed)
        }
        Expr::BinaryCall(called, left, right) => {
            let left = type_of(alloc, left, env, known);
            second_called(alloc, right, env, known, *called, left)
        }
    }
}

/// Returns the judgement on an expression under the capabilities `known` and then `gains`. The capabilities of the
/// result are `gains`, followed by those that the expression gains.
#[cycle(judge)]
#[inline(never)]
fn type_under_gained<'a>(
    alloc: Global,
    expr: &'a Shared<Expr>,
    env: TypingEnvironment<'a>,
    known: &mut Capabilities<'a>,
    gains: Vec<Capability<'a>>,
) -> Result<Typed<'a>, TypeFault>
    ensures { JudgedUnder (typing_environment env.entry) known.old (capabilities gains.entry.items)
        expr.entry.now result known.new }
{
    let height = known.len();
    match know_too(known, &gains) {
        Ok(()) => {
            let typed = type_of(alloc, expr, env, known);
            known.truncate_to(height);
            gained_too(gains, typed)
        }
        Err(_) => Err(TypeFault::NoMemory),
    }
}

/// Returns the judgement on `&&`. Types the left side and then, if the left side may be true, the right side. Does not
/// type the first operand of the right side again if [`tested_operand_type`] finds its type in the left side.
#[cycle(judge)]
#[inline(never)]
fn type_and<'a>(
    alloc: Global,
    left: &'a Shared<Expr>,
    right: &'a Shared<Expr>,
    env: TypingEnvironment<'a>,
    known: &mut Capabilities<'a>,
) -> Result<Typed<'a>, TypeFault>
    ensures { Judged (typing_environment env.entry) known.old (form.And left.entry.now right.entry.now) result
        known.new }
{
    let test = type_of(alloc, left, env, known);
    match &**right {
        Expr::Binary(operator, again, other) => {
            match tested_operand_type(env, &test, left, *operator, again, other) {
                Some(name) => {
                    drop(test);
                    let other = type_of(alloc, other, env, known);
                    let right = repeated_operand_typed(alloc, env, *operator, name, other);
                    and_typed(BooleanType::True, right)
                }
                None => second_conjunct(alloc, right, env, known, test),
            }
        }
        _ => second_conjunct(alloc, right, env, known, test),
    }
}

/// Returns the judgement on `||`. Types the left side and then, if the left side may be false, the right side.
#[cycle(judge)]
#[inline(never)]
fn type_or<'a>(
    alloc: Global,
    left: &'a Shared<Expr>,
    right: &'a Shared<Expr>,
    env: TypingEnvironment<'a>,
    known: &mut Capabilities<'a>,
) -> Result<Typed<'a>, TypeFault>
    ensures { Judged (typing_environment env.entry) known.old (form.Or left.entry.now right.entry.now) result
        known.new }
{
    let left = type_of(alloc, left, env, known);
    second_disjunct(alloc, right, env, known, left)
}

/// Returns the judgement on a binary operator. Does not type the operands if literals decide the result.
#[cycle(judge)]
#[inline(never)]
fn type_binary<'a>(
    alloc: Global,
    operator: Binary,
    left: &'a Shared<Expr>,
    right: &'a Shared<Expr>,
    env: TypingEnvironment<'a>,
    known: &mut Capabilities<'a>,
) -> Result<Typed<'a>, TypeFault>
    ensures { Judged (typing_environment env.entry) known.old
        (form.Binary operator left.entry.now right.entry.now) result known.new }
{
    match decided_by_literals(env, operator, left, right) {
        Some(truth) => Ok(plain(alloc, StaticType::boolean(truth_type(truth)))),
        None => {
            let left = type_of(alloc, left, env, known);
            second_operand(alloc, right, env, known, operator, left)
        }
    }
}

/// Returns the judgement on `&&`, given the judgement on its left side; types the right side only if the left side may
/// be true.
#[cycle(judge)]
#[inline(never)]
fn second_conjunct<'a>(
    alloc: Global,
    right: &'a Shared<Expr>,
    env: TypingEnvironment<'a>,
    known: &mut Capabilities<'a>,
    left: Result<Typed<'a>, TypeFault>,
) -> Result<Typed<'a>, TypeFault>
    ensures { let E = typing_environment env.entry in (K : CapabilityList) (a : Expr)
        → Judged E K a left.entry known.old
        → Judged E K (form.And a right.entry.now) result known.new }
{
    match left {
        Ok(left) => match left.kind.as_boolean() {
            Some(truth) => {
                if !is_right_checked(truth) {
                    drop(left);
                    return Ok(plain(alloc, StaticType::boolean(BooleanType::False)));
                }
                let right = type_under_gained(alloc, right, env, known, left.gains);
                and_typed(truth, right)
            }
            None => {
                drop(left);
                Err(TypeFault::Unexpected)
            }
        },
        Err(fault) => Err(fault),
    }
}

/// Returns the judgement on `||`, given the judgement on its left side; types the right side only if the left side may
/// be false.
#[cycle(judge)]
#[inline(never)]
fn second_disjunct<'a>(
    alloc: Global,
    right: &'a Shared<Expr>,
    env: TypingEnvironment<'a>,
    known: &mut Capabilities<'a>,
    left: Result<Typed<'a>, TypeFault>,
) -> Result<Typed<'a>, TypeFault>
    ensures { let E = typing_environment env.entry in (K : CapabilityList) (a : Expr)
        → Judged E K a left.entry known.old
        → Judged E K (form.Or a right.entry.now) result known.new }
{
    match left {
        Ok(left) => match left.kind.as_boolean() {
            Some(BooleanType::True) => {
                drop(left);
                Ok(plain(alloc, StaticType::boolean(BooleanType::True)))
            }
            Some(BooleanType::False) => {
                drop(left);
                let right = type_of(alloc, right, env, known);
                or_behind_false(right)
            }
            Some(BooleanType::Either) => {
                drop(left.kind);
                let right = type_of(alloc, right, env, known);
                or_typed(alloc, left.gains, right)
            }
            None => {
                drop(left);
                Err(TypeFault::Unexpected)
            }
        },
        Err(fault) => Err(fault),
    }
}

/// Returns the judgement on the test and the `then` of an `if`, given the judgement on the test; types `then` only if
/// the test may be true.
#[cycle(judge)]
#[inline(never)]
fn type_then<'a>(
    alloc: Global,
    consequent: &'a Shared<Expr>,
    env: TypingEnvironment<'a>,
    known: &mut Capabilities<'a>,
    test: Result<Typed<'a>, TypeFault>,
) -> Result<Then<'a>, TypeFault>
    ensures { let E = typing_environment env.entry in (K : CapabilityList) (a : Expr)
        → Judged E K a test.entry known.old
        → ThenJudged E K a consequent.entry.now result known.new }
{
    match test {
        Ok(test) => match test.kind.as_boolean() {
            Some(BooleanType::True) => {
                drop(test.kind);
                only(type_under_gained(alloc, consequent, env, known, test.gains))
            }
            Some(BooleanType::False) => {
                drop(test);
                Ok(Then::Skipped)
            }
            Some(BooleanType::Either) => {
                drop(test.kind);
                both(type_under_gained(alloc, consequent, env, known, test.gains))
            }
            None => {
                drop(test);
                Err(TypeFault::Unexpected)
            }
        },
        Err(fault) => Err(fault),
    }
}

/// Returns the judgement on an `if`, given the judgement on its test and its `then`; types `else` only if the test may
/// be false.
#[cycle(judge)]
#[inline(never)]
fn type_else<'a>(
    alloc: Global,
    alternative: &'a Shared<Expr>,
    env: TypingEnvironment<'a>,
    known: &mut Capabilities<'a>,
    then: Result<Then<'a>, TypeFault>,
) -> Result<Typed<'a>, TypeFault>
    ensures { let E = typing_environment env.entry in
        (K : CapabilityList) (a b : Expr) → ThenJudged E K a b then.entry known.old
        → Judged E K (form.If a b alternative.entry.now) result known.new }
{
    match then {
        Ok(Then::Skipped) => type_of(alloc, alternative, env, known),
        Ok(Then::Only(typed)) => Ok(typed),
        Ok(Then::Both(typed)) => {
            let other = type_of(alloc, alternative, env, known);
            branches(alloc, typed, other)
        }
        Err(fault) => Err(fault),
    }
}

/// Returns the judgement on a binary operator, given the judgement on its first operand; types the second operand only
/// if the first has a type.
#[cycle(judge)]
#[inline(never)]
fn second_operand<'a>(
    alloc: Global,
    right: &'a Shared<Expr>,
    env: TypingEnvironment<'a>,
    known: &mut Capabilities<'a>,
    operator: Binary,
    left: Result<Typed<'a>, TypeFault>,
) -> Result<Typed<'a>, TypeFault>
    ensures { let E = typing_environment env.entry in
        (K : CapabilityList) (a : Expr) → UndecidedByLiterals E operator a right.entry.now
        → Judged E K a left.entry known.old
        → Judged E K (form.Binary operator a right.entry.now) result known.new }
{
    match left {
        Ok(left) => {
            let right = type_of(alloc, right, env, known);
            binary_typed(alloc, env, operator, left, right)
        }
        Err(fault) => Err(fault),
    }
}

/// Returns the judgement on a call of an extension's method, given the judgement on its receiver; types the argument
/// only if the receiver has a type.
#[cycle(judge)]
#[inline(never)]
fn second_called<'a>(
    alloc: Global,
    right: &'a Shared<Expr>,
    env: TypingEnvironment<'a>,
    known: &mut Capabilities<'a>,
    called: BinaryCall,
    left: Result<Typed<'a>, TypeFault>,
) -> Result<Typed<'a>, TypeFault>
    ensures { let E = typing_environment env.entry in (K : CapabilityList) (a : Expr)
        → Judged E K a left.entry known.old
        → Judged E K (form.BinaryCall called a right.entry.now) result known.new }
{
    match left {
        Ok(left) => {
            let right = type_of(alloc, right, env, known);
            call_typed(alloc, called, left, right)
        }
        Err(fault) => Err(fault),
    }
}

/// Returns the types of the members of a set, in order. A member that repeats the previous one is left out.
#[cycle(judge)]
#[inline(never)]
fn types_of<'a>(
    alloc: Global,
    exprs: &'a Items<Expr>,
    env: TypingEnvironment<'a>,
    known: &mut Capabilities<'a>,
) -> Result<Vec<StaticType<'a>>, TypeFault>
    ensures { JudgedMembers (typing_environment env.entry) known.old exprs.entry.now result known.new }
{
    let mut types = Vec::new(alloc);
    let mut before = None;
    for expr in exprs.as_slice() {
        if repeats(expr, before) {
            continue;
        }
        let typed = type_of(alloc, expr, env, known);
        match put_type(&mut types, typed) {
            Ok(()) => {}
            Err(fault) => return Err(fault),
        }
        before = Some(expr);
    }
    Ok(types)
}

/// Returns the types of the fields of a record, in the order in which they are written.
#[cycle(judge)]
#[inline(never)]
fn types_of_fields<'a>(
    alloc: Global,
    fields: &'a Items<Named<Expr>>,
    env: TypingEnvironment<'a>,
    known: &mut Capabilities<'a>,
) -> Result<Vec<StaticType<'a>>, TypeFault>
    ensures { JudgedEach (typing_environment env.entry) known.old
        (map (λ f. f.value) fields.entry.now) result known.new }
{
    let mut types = Vec::new(alloc);
    for field in fields.as_slice() {
        let typed = type_of(alloc, &field.value, env, known);
        match put_type(&mut types, typed) {
            Ok(()) => {}
            Err(fault) => return Err(fault),
        }
    }
    Ok(types)
}
