//! The typing of a conjunction, grouped to the right, one part after another.
ghost use Rattle.std.specs.Prelude.{◌≡◌, ◌≢◌, ◌++◌, Some, option_map, MatchResult};
ghost use Rattle.grammar_core.specs.declared.expr.Expr.{Expr};
ghost use Rattle.grammar_core.specs.declared.expr.Expr.TheVariants as form;
ghost use Rattle.typing.specs.Types.{IsBoolean};
ghost use Rattle.typing.specs.Gained.{CapabilityList};
ghost use Rattle.typing.specs.Typing.{Types};
ghost use Rattle.typing.specs.Faults.{Faults};
ghost use Rattle.type_checker.specs.Views.{boolean_view, static_view, typing_environment};
ghost use Rattle.type_capabilities.specs.CapabilityList.{capabilities};
ghost use Rattle.type_checker.specs.inner.Joining.{and_so_far, IsSide};

use crate::branching::and_truth;
use crate::environment::TypingEnvironment;
use crate::judging::type_of;
use crate::known::know_too;
use crate::static_type::{BooleanType, StaticType};
use crate::typed::Typed;
use grammar_core::Expr;
use std::alloc::Global;
use type_capabilities::Capabilities;
use typing::TypeFault;

/// Returns the boolean type of a left side of `&&`, and pushes the capabilities that it gains onto `known`.
/// Returns `Unexpected` if the left side is not boolean.
fn known_left<'a>(known: &mut Capabilities<'a>, typed: &Typed<'a>) -> Result<BooleanType, TypeFault>
    ensures { MatchResult result
        (λ b. (static_view typed.now.kind ≡ boolean_view b)
        × (known.new ≡ known.old ++ capabilities typed.now.gains.items))
        (λ f. f ≢ TypeFault.NoMemory
        → (f ≡ TypeFault.Unexpected) × ¬ IsBoolean (static_view typed.now.kind)) }
{
    match typed.kind.as_boolean() {
        Some(truth) => match know_too(known, &typed.gains) {
            Ok(()) => Ok(truth),
            Err(_) => Err(TypeFault::NoMemory),
        },
        None => Err(TypeFault::Unexpected),
    }
}

/// Types a left side of `&&` under the capabilities `known`, returns its boolean type, and pushes the capabilities that
/// it gains onto `known`. Returns the error of the left side, or `Unexpected` if it is not boolean.
pub(crate) fn left_type<'a>(
    alloc: Global,
    env: TypingEnvironment<'a>,
    left: &'a Expr,
    known: &mut Capabilities<'a>,
) -> Result<BooleanType, TypeFault>
    ensures { let E = typing_environment env.entry in MatchResult result
        (λ b. (L : CapabilityList) × Types E known.old left.entry.now (boolean_view b) L
        × (known.new ≡ known.old ++ L))
        (λ f. f ≢ TypeFault.NoMemory
        → (b : Expr) → Faults E known.old (form.And left.entry.now b) f) }
{
    match type_of(alloc, left, env, known) {
        Ok(typed) => known_left(known, &typed),
        Err(fault) => Err(fault),
    }
}

/// Returns the type of a conjunction whose last part has the type `truth`; never `None`. The conjunction of the parts
/// before it has the type `so_far`, which is `None` if no part precedes it.
pub(crate) fn and_one_more(so_far: Option<BooleanType>, truth: BooleanType) -> Option<BooleanType>
    ensures { option_map boolean_view result
        ≡ Some (and_so_far (option_map boolean_view so_far) (boolean_view truth)) }
{
    match so_far {
        Some(left) => Some(and_truth(left, truth)),
        None => Some(truth),
    }
}

/// Returns the type of a conjunction whose last part has the type `last`. The conjunction of the parts before it has
/// the type `so_far`, which is `None` if no part precedes it. Returns `Unexpected` if parts precede it and `last` is
/// not boolean.
pub(crate) fn and_last<'a>(
    so_far: Option<BooleanType>,
    last: StaticType<'a>,
) -> Result<StaticType<'a>, TypeFault>
    ensures { let s = option_map boolean_view so_far in MatchResult result
        (λ t. IsSide s (static_view last.entry) × (static_view t ≡ and_so_far s (static_view last.entry)))
        (λ f. (f ≡ TypeFault.Unexpected) × ¬ IsSide s (static_view last.entry)) }
{
    match so_far {
        Some(left) => match last.as_boolean() {
            Some(truth) => Ok(StaticType::boolean(and_truth(left, truth))),
            None => Err(TypeFault::Unexpected),
        },
        None => Ok(last),
    }
}
