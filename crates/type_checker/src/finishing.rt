//! The judgement (type with gained capabilities, or error) on an expression, from the judgements on its operands, of
//! which the last may be an error.
//!
//! Most clauses say: for all operands, if the judgements on the operands hold, so does the judgement on the whole.
ghost use Rattle.std.specs.Prelude.{◌≡◌, ◌≢◌, List, map, IfOk, MatchResult};
ghost use Rattle.grammar_core.specs.declared.expr.Expr.{Expr};
ghost use Rattle.grammar_core.specs.declared.expr.Expr.TheVariants as form;
ghost use Rattle.typing.specs.Environment as environment;
ghost use Rattle.typing.specs.Gained as gained;
ghost use Rattle.typing.specs.Gained.{CapabilityList, has_gains};
ghost use Rattle.typing.specs.Literals.{UndecidedByLiterals};
ghost use Rattle.typing.specs.Typing.{Types};
ghost use Rattle.typing.specs.Faults.{Faults};
ghost use Rattle.type_checker.specs.Views.{static_view, typing_environment};
ghost use Rattle.type_capabilities.specs.CapabilityList.{capabilities};
ghost use Rattle.type_checker.specs.inner.CapabilityList.{if_gained};
ghost use Rattle.type_checker.specs.inner.Judged.{Judged, JudgedEach, JudgedMembers, IsHasRow, IsNext};

use crate::calls::unary_call_type;
use crate::environment::TypingEnvironment;
use crate::fields::{field_type, has_type};
use crate::known::knows;
use crate::literal_types::{record_literal_type, set_literal_type};
use crate::operators::{binary_type, call_type, unary_type};
use crate::static_type::{BooleanType, StaticType};
use crate::typed::{Typed, plain, typed_row};
use grammar_core::{Binary, BinaryCall, Expr, Named, Unary, UnaryCall};
use plain::NoMemory;
use std::alloc::Global;
use type_capabilities::{Capabilities, Capability};
use typing::TypeFault;

/// Returns the judgement on a unary operator, given the judgement on its operand.
pub(crate) fn unary_typed<'a>(
    alloc: Global,
    operator: &Unary,
    operand: Result<Typed<'a>, TypeFault>,
) -> Result<Typed<'a>, TypeFault>
    ensures { (env : environment.Environment) (K after : CapabilityList) (a : Expr) → Judged env K a operand.entry after
        → Judged env K (form.Unary operator.now a) result after }
{
    let operand = match operand {
        Ok(operand) => operand,
        Err(fault) => return Err(fault),
    };
    typed_row(alloc, unary_type(operator, operand.kind))
}

/// Returns the judgement on a binary operator whose result is not decided by literals, given the judgements on its
/// operands.
pub(crate) fn binary_typed<'a>(
    alloc: Global,
    env: TypingEnvironment<'a>,
    operator: Binary,
    left: Typed<'a>,
    right: Result<Typed<'a>, TypeFault>,
) -> Result<Typed<'a>, TypeFault>
    ensures { let E = typing_environment env.entry in
        (K after : CapabilityList) (a b : Expr) → UndecidedByLiterals E operator a b
        → Types E K a (static_view left.entry.kind) (capabilities left.entry.gains.items)
        → Judged E K b right.entry after
        → Judged E K (form.Binary operator a b) result after }
{
    let right = match right {
        Ok(right) => right,
        Err(fault) => {
            drop(left);
            return Err(fault);
        }
    };
    typed_row(
        alloc,
        binary_type(alloc, env, operator, left.kind, right.kind),
    )
}

/// Returns the judgement on a call of an extension's method, given the judgements on its operands.
pub(crate) fn call_typed<'a>(
    alloc: Global,
    called: BinaryCall,
    left: Typed<'a>,
    right: Result<Typed<'a>, TypeFault>,
) -> Result<Typed<'a>, TypeFault>
    ensures { (env : environment.Environment) (K after : CapabilityList) (a b : Expr)
        → Types env K a (static_view left.entry.kind) (capabilities left.entry.gains.items)
        → Judged env K b right.entry after → Judged env K (form.BinaryCall called a b) result after }
{
    let right = match right {
        Ok(right) => right,
        Err(fault) => {
            drop(left);
            return Err(fault);
        }
    };
    typed_row(alloc, call_type(called, left.kind, right.kind))
}

/// Returns the judgement on a call of `ip`, `decimal` or a test of an IP address, given the judgement on its operand.
pub(crate) fn unary_call_typed<'a>(
    alloc: Global,
    called: UnaryCall,
    operand: &Expr,
    typed: Result<Typed<'a>, TypeFault>,
) -> Result<Typed<'a>, TypeFault>
    ensures { (env : environment.Environment) (K after : CapabilityList) → Judged env K operand.now typed.entry after
        → Judged env K (form.UnaryCall called operand.now) result after }
{
    let typed = match typed {
        Ok(typed) => typed,
        Err(fault) => return Err(fault),
    };
    typed_row(alloc, unary_call_type(called, operand, typed.kind))
}

/// Returns the judgement on `owner.name`, given the judgement on `owner`.
pub(crate) fn field_typed<'a>(
    alloc: Global,
    env: TypingEnvironment<'a>,
    known: &Capabilities<'a>,
    owner: &'a Expr,
    name: &'a str,
    typed: Result<Typed<'a>, TypeFault>,
) -> Result<Typed<'a>, TypeFault>
    ensures { let E = typing_environment env.entry in
        (K : CapabilityList) → Judged E K owner.entry.now typed.entry known.now
        → Judged E K (form.Field owner.entry.now name.entry.now) result known.now }
{
    let typed = match typed {
        Ok(typed) => typed,
        Err(fault) => return Err(fault),
    };
    let is_known = knows(known, owner, name);
    let row = field_type(env, is_known, name, &typed.kind);
    drop(typed);
    typed_row(alloc, row)
}

/// Returns whether a `has` of the type `kind` gains its capability: whether `kind` is Bool.
#[tactic(auto, using(crate::proofs::Carrying::none_learned))]
fn is_gained(kind: &StaticType<'_>) -> bool
    ensures { (p : gained.Capability) → has_gains (static_view kind.now) p ≡ if_gained result p }
{
    match kind.as_boolean() {
        Some(BooleanType::Either) => true,
        Some(BooleanType::True) => false,
        Some(BooleanType::False) => false,
        None => false,
    }
}

/// Returns the capabilities that `owner has name` of the type `kind` gains: its own or none.
fn learned<'a>(
    alloc: Global,
    kind: &StaticType<'a>,
    owner: &'a Expr,
    name: &'a str,
) -> Result<Vec<Capability<'a>>, NoMemory>
    ensures { IfOk result (λ ps. capabilities ps.items
        ≡ has_gains (static_view kind.now) (owner.entry.now, name.entry.now)) }
{
    let mut gains = Vec::new(alloc);
    if is_gained(kind) {
        gains.push(Capability { whole: owner, name })?;
    }
    Ok(gains)
}

/// Returns the type of `owner has name` in `row`, with the capabilities that it gains, or the error in `row`.
fn has_row<'a>(
    alloc: Global,
    row: Result<StaticType<'a>, TypeFault>,
    owner: &'a Expr,
    name: &'a str,
) -> Result<Typed<'a>, TypeFault>
    ensures { IsHasRow (owner.entry.now, name.entry.now) row.entry result }
{
    match row {
        Ok(kind) => match learned(alloc, &kind, owner, name) {
            Ok(gains) => Ok(Typed { kind, gains }),
            Err(_) => Err(TypeFault::NoMemory),
        },
        Err(fault) => Err(fault),
    }
}

/// Returns the judgement on `owner has name`, given the judgement on `owner`.
pub(crate) fn has_typed<'a>(
    alloc: Global,
    env: TypingEnvironment<'a>,
    known: &Capabilities<'a>,
    owner: &'a Expr,
    name: &'a str,
    typed: Result<Typed<'a>, TypeFault>,
) -> Result<Typed<'a>, TypeFault>
    ensures { let E = typing_environment env.entry in
        (K : CapabilityList) → Judged E K owner.entry.now typed.entry known.now
        → Judged E K (form.Has owner.entry.now name.entry.now) result known.now }
{
    let typed = match typed {
        Ok(typed) => typed,
        Err(fault) => return Err(fault),
    };
    let is_known = knows(known, owner, name);
    let row = has_type(env, is_known, name, &typed.kind);
    drop(typed);
    has_row(alloc, row, owner, name)
}

/// Returns the judgement on a set literal, given the types of its members. A member that repeats the previous one may
/// be left out.
pub(crate) fn set_typed<'a>(
    alloc: Global,
    types: Result<Vec<StaticType<'a>>, TypeFault>,
) -> Result<Typed<'a>, TypeFault>
    ensures { (env : environment.Environment) (K after : CapabilityList) (xs : List Expr)
        → JudgedMembers env K xs types.entry after → Judged env K (form.Set xs) result after }
{
    let types = match types {
        Ok(types) => types,
        Err(fault) => return Err(fault),
    };
    typed_row(alloc, set_literal_type(alloc, types))
}

/// Returns the judgement on a record literal, given the types of its fields, in the order in which they are written.
pub(crate) fn record_typed<'a>(
    alloc: Global,
    fields: &'a [Named<Expr>],
    types: Result<Vec<StaticType<'a>>, TypeFault>,
) -> Result<Typed<'a>, TypeFault>
    ensures { (env : environment.Environment) (K after : CapabilityList)
        → JudgedEach env K (map (λ f. f.value) fields.entry.now) types.entry after
        → Judged env K (form.Record fields.entry.now) result after }
{
    let types = match types {
        Ok(types) => types,
        Err(fault) => return Err(fault),
    };
    match record_literal_type(alloc, fields, types) {
        Ok(kind) => Ok(plain(alloc, kind)),
        Err(_) => Err(TypeFault::NoMemory),
    }
}

/// Appends the type in `typed` to `types`, or returns the error in `typed`, or `NoMemory`.
pub(crate) fn put_type<'a>(
    types: &mut Vec<StaticType<'a>>,
    typed: Result<Typed<'a>, TypeFault>,
) -> Result<(), TypeFault>
    ensures { (env : environment.Environment) (K after : CapabilityList) (x : Expr) → Judged env K x typed.entry after
        → MatchResult result (λ _. (after ≡ K) × IsNext env K x types.old.items types.new.items)
        (λ f. f ≢ TypeFault.NoMemory → Faults env K x f) }
{
    let typed = match typed {
        Ok(typed) => typed,
        Err(fault) => return Err(fault),
    };
    types.push(typed.kind)?;
    Ok(())
}
