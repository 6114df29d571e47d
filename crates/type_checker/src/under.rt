//! The type of an expression under known capabilities.
ghost use Rattle.std.specs.Prelude.{◌≢◌, IfOk, IfErr};
ghost use Rattle.typing.specs.Typing.{Types};
ghost use Rattle.typing.specs.Faults.{Faults};
ghost use Rattle.type_checker.specs.Views.{static_view, typing_environment};
ghost use Rattle.type_capabilities.specs.CapabilityList.{capabilities};

use crate::environment::TypingEnvironment;
use crate::judging::type_of;
use crate::known::stacked;
use crate::typed::Typed;
use grammar_core::Expr;
use std::alloc::Global;
use type_capabilities::Capability;
use typing::TypeFault;

/// Returns the type of an expression under these known capabilities, with the capabilities that it gains.
///
/// Takes the time that [`judge_all`](crate::judge_all) takes for `expr`, and one look-up for each of `known`.
///
/// # Errors
///
/// - The first error of the expression.
/// - `NoMemory`: an allocation failed, or the count of references to a type would overflow; possible at any point.
pub fn judge_under<'a>(
    alloc: Global,
    env: TypingEnvironment<'a>,
    known: &[Capability<'a>],
    expr: &'a Expr,
) -> Result<Typed<'a>, TypeFault>
    ensures typed { IfOk result (λ t. Types (typing_environment env.entry) (capabilities known.now) expr.entry.now
        (static_view t.kind) (capabilities t.gains.items)) }
    ensures faulty { IfErr result (λ f. f ≢ TypeFault.NoMemory
        → Faults (typing_environment env.entry) (capabilities known.now) expr.entry.now f) }
{
    let mut stack = stacked(alloc, known)?;
    type_of(alloc, expr, env, &mut stack)
}
