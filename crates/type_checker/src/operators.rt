//! The types of operators and calls, given the types of their operands.
ghost use Rattle.std.specs.Prelude.{◌≡◌, Ok, option_map};
ghost use Rattle.grammar_core.specs.declared.operator.Unary.TheVariants.{Not};
ghost use Rattle.grammar_core.specs.declared.operator.Binary.TheVariants.{In};
ghost use Rattle.typing.specs.Types.{common};
ghost use Rattle.typing.specs.Rows.{unary_type, binary_type, address_test_type, call_type};
ghost use Rattle.typing.specs.Rows.{if_common, equal_type, may_be_in, of_numbers};
ghost use Rattle.type_checker.specs.Views.{boolean_view, leaf_view, static_view};
ghost use Rattle.type_checker.specs.Views.{typing_environment, Answers, TakesNoMemory};
ghost use Rattle.type_checker.specs.inner.Parts.{part_view, kind_view};
ghost use Rattle.type_checker.specs.inner.Rows.{entity_type_in, entities_in, are_unequal, contains_type, sets_type};
ghost use Rattle.type_checker.specs.inner.Rows.{is_decimal, is_ipaddr};

use crate::environment::{TypingEnvironment, is_action_type};
use crate::literal_types::truth_type;
use crate::parts::{Part, TypeKind};
use crate::static_type::{BooleanType, Leaf, StaticType};
use crate::type_joins::{Join, join_of};
use grammar_core::{Binary, BinaryCall, Unary};
use std::alloc::Global;
use typing::TypeFault;
use values::TypeName;

/// Returns the type of a negated boolean.
fn negation_type(truth: BooleanType) -> BooleanType
    ensures { unary_type Not (boolean_view truth) ≡ Ok (boolean_view result) }
{
    match truth {
        BooleanType::True => BooleanType::False,
        BooleanType::False => BooleanType::True,
        BooleanType::Either => BooleanType::Either,
    }
}

/// Returns the type of a unary operator on an operand of this kind, or `Unexpected`.
fn type_unary<'a>(operator: &Unary, operand: TypeKind<'_, 'a>) -> Result<StaticType<'a>, TypeFault>
    ensures row { Answers result (unary_type operator.now (kind_view operand.entry)) }
    ensures memory { TakesNoMemory result }
{
    match (operator, operand) {
        (Unary::Not, TypeKind::Leaf(Leaf::Boolean(truth))) => {
            Ok(StaticType::boolean(negation_type(truth)))
        }
        (Unary::Negate, TypeKind::Leaf(Leaf::Long)) => Ok(StaticType::Leaf(Leaf::Long)),
        (Unary::Like(_), TypeKind::Leaf(Leaf::Text)) => {
            Ok(StaticType::boolean(BooleanType::Either))
        }
        (Unary::Is(name), TypeKind::Leaf(Leaf::Entity(found))) => {
            let truth = found.as_str() == name.as_str();
            Ok(StaticType::boolean(truth_type(truth)))
        }
        _ => Err(TypeFault::Unexpected),
    }
}

/// Returns the type of a unary operator on an operand of this type. Does not allocate.
///
/// # Errors
///
/// - `Unexpected`: the operator demands another type.
pub fn unary_type<'a>(
    operator: &Unary,
    operand: StaticType<'a>,
) -> Result<StaticType<'a>, TypeFault>
    ensures row { Answers result (unary_type operator.now (static_view operand.entry)) }
    ensures memory { TakesNoMemory result }
{
    let row = type_unary(operator, Part::Built(&operand).kind());
    drop(operand);
    row
}

/// Returns the type of a binary operator on operands of these types.
///
/// Takes time linear in the nodes of the smaller type, and drops both types; for `in`, looks up the entity types in the
/// schema. Does not allocate.
///
/// # Errors
///
/// In this order:
///
/// - `Unexpected`: the operator demands other types.
/// - `NoCommonType`: the operator demands a common type, and there is none.
pub fn binary_type<'a>(
    _alloc: Global,
    env: TypingEnvironment<'a>,
    operator: Binary,
    left: StaticType<'a>,
    right: StaticType<'a>,
) -> Result<StaticType<'a>, TypeFault>
    ensures row { Answers result
        (binary_type (typing_environment env.entry) operator (static_view left.entry) (static_view right.entry)) }
    ensures memory { TakesNoMemory result }
{
    let row = type_binary(env, operator, Part::Built(&left), Part::Built(&right));
    drop(left);
    drop(right);
    row
}

/// Returns the type of a binary operator on operands of these types, each built or declared.
fn type_binary<'a>(
    env: TypingEnvironment<'a>,
    operator: Binary,
    left: Part<'_, 'a>,
    right: Part<'_, 'a>,
) -> Result<StaticType<'a>, TypeFault>
    ensures row { Answers result
        (binary_type (typing_environment env.entry) operator (part_view left.entry) (part_view right.entry)) }
    ensures memory { TakesNoMemory result }
{
    let (one, other) = (left.kind(), right.kind());
    match operator {
        Binary::Equal => type_equality(left, right),
        Binary::In => type_membership(env, one, other),
        Binary::Less | Binary::LessOrEqual => {
            of_numbers(Leaf::Boolean(BooleanType::Either), one, other)
        }
        Binary::Add | Binary::Subtract | Binary::Multiply => of_numbers(Leaf::Long, one, other),
        Binary::Contains => type_containment(one, right),
        Binary::ContainsAll | Binary::ContainsAny => sets_of(one, other),
    }
}

/// Returns Bool if two types have a common type, else `NoCommonType`.
fn if_common<'a>(left: Part<'_, 'a>, right: Part<'_, 'a>) -> Result<StaticType<'a>, TypeFault>
    ensures row { Answers result (if_common (common (part_view left.entry) (part_view right.entry))) }
    ensures memory { TakesNoMemory result }
{
    match join_of(left, right) {
        Join::Apart => Err(TypeFault::NoCommonType),
        Join::Left | Join::Wider => Ok(StaticType::boolean(BooleanType::Either)),
    }
}

/// Returns the name of an entity type, or `None` for another type.
fn entity_of<'a>(kind: TypeKind<'_, 'a>) -> Option<&'a TypeName>
    ensures { option_map (λ n. n.now) result ≡ entity_type_in (kind_view kind.entry) }
{
    match kind {
        TypeKind::Leaf(Leaf::Entity(name)) => Some(name),
        _ => None,
    }
}

/// Returns the name of an entity type or of the entity type of a set's members, or `None` for another type.
fn entities_of<'a>(kind: TypeKind<'_, 'a>) -> Option<&'a TypeName>
    ensures { option_map (λ n. n.now) result ≡ entities_in (kind_view kind.entry) }
{
    match kind {
        TypeKind::Set(member) => entity_of(member.kind()),
        TypeKind::Leaf(_) | TypeKind::Record(_) => entity_of(kind),
    }
}

/// Returns the type of `==`: False for two different entity types, else Bool if there is a common type, else
/// `NoCommonType`.
fn type_equality<'a>(left: Part<'_, 'a>, right: Part<'_, 'a>) -> Result<StaticType<'a>, TypeFault>
    ensures row { Answers result (equal_type (part_view left.entry) (part_view right.entry)) }
    ensures memory { TakesNoMemory result }
{
    if are_unequal(entity_of(left.kind()), entity_of(right.kind())) {
        return Ok(StaticType::boolean(BooleanType::False));
    }
    if_common(left, right)
}

/// Returns whether both names are present and differ.
fn are_unequal(left: Option<&TypeName>, right: Option<&TypeName>) -> bool
    ensures { result ≡ are_unequal (option_map (λ n. n.now) left.entry) (option_map (λ n. n.now) right.entry) }
{
    match left {
        Some(a) => match right {
            Some(b) => a.as_str() != b.as_str(),
            None => false,
        },
        None => false,
    }
}

/// Returns whether an entity of the type `left` may be in one of the type `right`: `left` or `right` is an action type,
/// or both are the same type, or `right` is an ancestor type of `left`.
fn may_be_in(env: TypingEnvironment<'_>, left: &TypeName, right: &TypeName) -> bool
    ensures { result ≡ may_be_in (typing_environment env.entry) left.now right.now }
{
    is_action_type(left)
        || is_action_type(right)
        || left.as_str() == right.as_str()
        || env.may_have_ancestor(left, right)
}

/// Returns the type of `in` on operands of these kinds. Returns `Unexpected` unless the left one is an entity, and the
/// right one an entity or a set of entities.
fn type_membership<'a>(
    env: TypingEnvironment<'a>,
    left: TypeKind<'_, 'a>,
    right: TypeKind<'_, 'a>,
) -> Result<StaticType<'a>, TypeFault>
    ensures row { Answers result
        (binary_type (typing_environment env.entry) In (kind_view left.entry) (kind_view right.entry)) }
    ensures memory { TakesNoMemory result }
{
    let (Some(below), Some(above)) = (entity_of(left), entities_of(right)) else {
        return Err(TypeFault::Unexpected);
    };
    if may_be_in(env, below, above) {
        Ok(StaticType::boolean(BooleanType::Either))
    } else {
        Ok(StaticType::boolean(BooleanType::False))
    }
}

/// Returns the type `given` if both operands are of the type Long, else `Unexpected`.
fn of_numbers<'a>(
    given: Leaf<'a>,
    left: TypeKind<'_, 'a>,
    right: TypeKind<'_, 'a>,
) -> Result<StaticType<'a>, TypeFault>
    ensures row { Answers result (of_numbers (leaf_view given.entry) (kind_view left.entry) (kind_view right.entry)) }
    ensures memory { TakesNoMemory result }
{
    match (left, right) {
        (TypeKind::Leaf(Leaf::Long), TypeKind::Leaf(Leaf::Long)) => Ok(StaticType::Leaf(given)),
        _ => Err(TypeFault::Unexpected),
    }
}

/// Returns the type of `contains` on operands of this kind and this type. Returns `Unexpected` if the left one is not a
/// set, else `NoCommonType` if its members and the right one have no common type.
fn type_containment<'a>(
    left: TypeKind<'_, 'a>,
    right: Part<'_, 'a>,
) -> Result<StaticType<'a>, TypeFault>
    ensures row { Answers result (contains_type (kind_view left.entry) (part_view right.entry)) }
    ensures memory { TakesNoMemory result }
{
    match left {
        TypeKind::Set(member) => if_common(member, right),
        TypeKind::Leaf(_) | TypeKind::Record(_) => Err(TypeFault::Unexpected),
    }
}

/// Returns the type of `containsAll` or `containsAny` on operands of these kinds. Returns `Unexpected` if either is not
/// a set, else `NoCommonType` if their members have no common type.
fn sets_of<'a>(left: TypeKind<'_, 'a>, right: TypeKind<'_, 'a>) -> Result<StaticType<'a>, TypeFault>
    ensures row { Answers result (sets_type (kind_view left.entry) (kind_view right.entry)) }
    ensures memory { TakesNoMemory result }
{
    match right {
        TypeKind::Set(member) => type_containment(left, member),
        TypeKind::Leaf(_) | TypeKind::Record(_) => Err(TypeFault::Unexpected),
    }
}

/// Returns the type of a test of an IP address, given its operand's type. Does not allocate.
///
/// # Errors
///
/// - `Unexpected`: the operand is not of the type ipaddr.
pub fn address_test_type<'a>(operand: StaticType<'a>) -> Result<StaticType<'a>, TypeFault>
    ensures row { Answers result (address_test_type (static_view operand.entry)) }
    ensures memory { TakesNoMemory result }
{
    let row = address_test_of(Part::Built(&operand).kind());
    drop(operand);
    row
}

/// Returns the type of a test of an IP address on an operand of this kind, or `Unexpected`.
fn address_test_of<'a>(operand: TypeKind<'_, 'a>) -> Result<StaticType<'a>, TypeFault>
    ensures row { Answers result (address_test_type (kind_view operand.entry)) }
    ensures memory { TakesNoMemory result }
{
    match operand {
        TypeKind::Leaf(Leaf::Ipaddr) => Ok(StaticType::boolean(BooleanType::Either)),
        _ => Err(TypeFault::Unexpected),
    }
}

/// Returns the type of a call of an extension's method, given its operands' types. Does not allocate.
///
/// # Errors
///
/// - `Unexpected`: an operand is not of the extension's type.
pub fn call_type<'a>(
    called: BinaryCall,
    left: StaticType<'a>,
    right: StaticType<'a>,
) -> Result<StaticType<'a>, TypeFault>
    ensures row { Answers result (call_type called (static_view left.entry) (static_view right.entry)) }
    ensures memory { TakesNoMemory result }
{
    let row = type_method_call(
        called,
        Part::Built(&left).kind(),
        Part::Built(&right).kind(),
    );
    drop(left);
    drop(right);
    row
}

/// Returns whether this is the type of decimals.
fn is_decimal(kind: TypeKind<'_, '_>) -> bool
    ensures { result ≡ is_decimal (kind_view kind.entry) }
{
    matches!(kind, TypeKind::Leaf(Leaf::Decimal))
}

/// Returns whether this is the type of IP addresses.
fn is_ipaddr(kind: TypeKind<'_, '_>) -> bool
    ensures { result ≡ is_ipaddr (kind_view kind.entry) }
{
    matches!(kind, TypeKind::Leaf(Leaf::Ipaddr))
}

/// Returns the type of a call of an extension's method on operands of these kinds, or `Unexpected`.
fn type_method_call<'a>(
    called: BinaryCall,
    left: TypeKind<'_, 'a>,
    right: TypeKind<'_, 'a>,
) -> Result<StaticType<'a>, TypeFault>
    ensures row { Answers result (call_type called (kind_view left.entry) (kind_view right.entry)) }
    ensures memory { TakesNoMemory result }
{
    let fits = match called {
        BinaryCall::LessThan
        | BinaryCall::LessThanOrEqual
        | BinaryCall::GreaterThan
        | BinaryCall::GreaterThanOrEqual => is_decimal(left) && is_decimal(right),
        BinaryCall::IsInRange => is_ipaddr(left) && is_ipaddr(right),
    };
    if fits {
        Ok(StaticType::boolean(BooleanType::Either))
    } else {
        Err(TypeFault::Unexpected)
    }
}
