//! The judgement (type with gained capabilities, or error) on `&&`, `||` and `if`, from the judgements on their
//! operands, of which the last may be an error.
//!
//! Most clauses say: for all operands, if the judgements on the operands hold, so does the judgement on the whole.
ghost use Rattle.std.specs.Prelude.{◌≡◌, ◌≢◌, IfOk, MatchResult, Ok, Err, Some, None};
ghost use Rattle.grammar_core.specs.declared.expr.Expr.{Expr};
ghost use Rattle.grammar_core.specs.declared.expr.Expr.TheVariants as form;
ghost use Rattle.typing.specs.Types.{false_type, boolean_type};
ghost use Rattle.typing.specs.Rows.{MayBeTrue, and_type, or_type};
ghost use Rattle.typing.specs.Environment as environment;
ghost use Rattle.typing.specs.Gained.{CapabilityList, InBoth, OrGains};
ghost use Rattle.typing.specs.Typing.{Types};
ghost use Rattle.type_checker.specs.Views.{boolean_view};
ghost use Rattle.type_capabilities.specs.CapabilityList.{capabilities};
ghost use Rattle.type_checker.specs.inner.Judged.{Judged, JudgedUnder, ThenTyped};

use crate::common_types::common;
use crate::known::in_both_lists;
use crate::static_type::{BooleanType, StaticType};
use crate::typed::Typed;
use plain::NoMemory;
use std::alloc::Global;
use type_capabilities::Capability;
use typing::TypeFault;

/// Returns the type of `&&` whose left side may be true, given the types of its sides.
pub(crate) fn and_truth(left: BooleanType, right: BooleanType) -> BooleanType
    ensures { boolean_view result ≡ and_type (boolean_view left) (boolean_view right) }
{
    match right {
        BooleanType::False => BooleanType::False,
        BooleanType::True => match left {
            BooleanType::True => BooleanType::True,
            BooleanType::False => BooleanType::Either,
            BooleanType::Either => BooleanType::Either,
        },
        BooleanType::Either => BooleanType::Either,
    }
}

/// Returns the judgement on `&&` whose left side has the type `left` and may be true, given the judgement `right` on
/// its right side. The capabilities in `right` are those of both sides: first those that the left side gains, then
/// those of the right side.
pub(crate) fn and_typed<'a>(
    left: BooleanType,
    right: Result<Typed<'a>, TypeFault>,
) -> Result<Typed<'a>, TypeFault>
    ensures { (env : environment.Environment) (K L after : CapabilityList) (a b : Expr)
        → Types env K a (boolean_view left) L
        → MayBeTrue (boolean_view left) → JudgedUnder env K L b right.entry after
        → Judged env K (form.And a b) result after }
{
    let right = match right {
        Ok(right) => right,
        Err(fault) => return Err(fault),
    };
    match right.kind.as_boolean() {
        Some(truth) => {
            drop(right.kind);
            Ok(Typed {
                kind: StaticType::boolean(and_truth(left, truth)),
                gains: right.gains,
            })
        }
        None => {
            drop(right);
            Err(TypeFault::Unexpected)
        }
    }
}

/// Returns the judgement on `||` whose left side has the type False, given the judgement on its right side.
pub(crate) fn or_behind_false<'a>(
    right: Result<Typed<'a>, TypeFault>,
) -> Result<Typed<'a>, TypeFault>
    ensures { (env : environment.Environment) (K L after : CapabilityList) (a b : Expr) → Types env K a false_type L
        → Judged env K b right.entry after → Judged env K (form.Or a b) result after }
{
    let right = match right {
        Ok(right) => right,
        Err(fault) => return Err(fault),
    };
    match right.kind.as_boolean() {
        Some(_) => Ok(right),
        None => {
            drop(right);
            Err(TypeFault::Unexpected)
        }
    }
}

/// Returns the type of `||` whose left side has the type Bool, given the type of its right side.
fn or_truth(right: BooleanType) -> BooleanType
    ensures { boolean_view result ≡ or_type (boolean_view right) }
{
    match right {
        BooleanType::True => BooleanType::True,
        BooleanType::False => BooleanType::Either,
        BooleanType::Either => BooleanType::Either,
    }
}

/// Returns the capabilities that `||` gains if its left side has the type Bool, given the type of its right side and
/// the capabilities that its sides gain.
#[tactic(auto, using(crate::proofs::Sides::or_none, crate::proofs::Sides::or_left, crate::proofs::Sides::or_both))]
fn or_gains<'a>(
    alloc: Global,
    right: BooleanType,
    of_left: Vec<Capability<'a>>,
    of_right: &Vec<Capability<'a>>,
) -> Result<Vec<Capability<'a>>, NoMemory>
    ensures { IfOk result (λ both. OrGains (boolean_view right) (capabilities of_left.entry.items)
        (capabilities of_right.now.items) (capabilities both.items)) }
{
    match right {
        BooleanType::True => Ok(Vec::new(alloc)),
        BooleanType::False => Ok(of_left),
        BooleanType::Either => Ok(in_both_lists(alloc, &of_left, of_right)?),
    }
}

/// Returns the judgement on `||` whose left side has the type Bool and gains the capabilities `left`, given the
/// judgement on its right side.
pub(crate) fn or_typed<'a>(
    alloc: Global,
    left: Vec<Capability<'a>>,
    right: Result<Typed<'a>, TypeFault>,
) -> Result<Typed<'a>, TypeFault>
    ensures { (env : environment.Environment) (K after : CapabilityList) (a b : Expr)
        → Types env K a boolean_type (capabilities left.entry.items) → Judged env K b right.entry after
        → Judged env K (form.Or a b) result after }
{
    let right = match right {
        Ok(right) => right,
        Err(fault) => {
            drop(left);
            return Err(fault);
        }
    };
    match right.kind.as_boolean() {
        Some(truth) => {
            let gains = or_gains(alloc, truth, left, &right.gains);
            drop(right);
            match gains {
                Ok(gains) => Ok(Typed {
                    kind: StaticType::boolean(or_truth(truth)),
                    gains,
                }),
                Err(_) => Err(TypeFault::NoMemory),
            }
        }
        None => {
            drop(left);
            drop(right);
            Err(TypeFault::Unexpected)
        }
    }
}

/// Returns the type of an `if` whose branches have the common type in `kind`, or `NoCommonType` if they have none.
fn branch_type<'a>(
    kind: Result<Option<StaticType<'a>>, NoMemory>,
) -> Result<StaticType<'a>, TypeFault>
    ensures { MatchResult result (λ t. kind.entry ≡ Ok (Some t))
        (λ f. f ≢ TypeFault.NoMemory → (f ≡ TypeFault.NoCommonType) × (kind.entry ≡ Ok None)) }
{
    match kind {
        Ok(Some(kind)) => Ok(kind),
        Ok(None) => Err(TypeFault::NoCommonType),
        Err(_) => Err(TypeFault::NoMemory),
    }
}

/// Returns the type in `kind` with the capabilities of `alternative` that are in `consequent` too, or the error in
/// `kind`.
fn with_both<'a>(
    alloc: Global,
    kind: Result<StaticType<'a>, TypeFault>,
    consequent: &Vec<Capability<'a>>,
    alternative: &Vec<Capability<'a>>,
) -> Result<Typed<'a>, TypeFault>
    ensures { MatchResult result
        (λ t. (kind.entry ≡ Ok t.kind)
        × InBoth (capabilities alternative.now.items) (capabilities consequent.now.items) (capabilities t.gains.items))
        (λ f. f ≢ TypeFault.NoMemory → kind.entry ≡ Err f) }
{
    match kind {
        Ok(kind) => match in_both_lists(alloc, alternative, consequent) {
            Ok(gains) => Ok(Typed { kind, gains }),
            Err(_) => Err(TypeFault::NoMemory),
        },
        Err(fault) => Err(fault),
    }
}

/// Returns the judgement on an `if` whose test has the type Bool. The argument `then` is the type of the branch `then`
/// with the capabilities that the test gains, followed by those of this branch; `other` is the judgement on `else`.
pub(crate) fn branches<'a>(
    alloc: Global,
    then: Typed<'a>,
    other: Result<Typed<'a>, TypeFault>,
) -> Result<Typed<'a>, TypeFault>
    ensures { (env : environment.Environment) (K after : CapabilityList) (a b c : Expr)
        → ThenTyped env K a b boolean_type then.entry → Judged env K c other.entry after
        → Judged env K (form.If a b c) result after }
{
    let other = match other {
        Ok(other) => other,
        Err(fault) => {
            drop(then);
            return Err(fault);
        }
    };
    let kind = branch_type(common(alloc, &then.kind, &other.kind));
    let row = with_both(alloc, kind, &then.gains, &other.gains);
    drop(then);
    drop(other);
    row
}
