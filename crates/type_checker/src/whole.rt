//! The type of a conjunction of expressions, without known capabilities.
ghost use Rattle.std.specs.Prelude.{◌≢◌, [], IfOk, IfErr};
ghost use Rattle.typing.specs.Gained.{CapabilityList};
ghost use Rattle.typing.specs.Typing.{Types};
ghost use Rattle.typing.specs.Faults.{Faults};
ghost use Rattle.type_checker.specs.Views.{static_view, typing_environment};
ghost use Rattle.type_checker.specs.Conjunctions.{joined};

use crate::environment::TypingEnvironment;
use crate::joining::{and_last, and_one_more, left_type};
use crate::judging::type_of;
use crate::static_type::{BooleanType, StaticType};
use crate::typed::is_right_checked;
use grammar_core::Expr;
use std::alloc::Global;
use type_capabilities::Capabilities;
use typing::TypeFault;

/// Returns the type of the conjunction of `parts` and `last`, grouped to the right as in `a && (b && last)`, without
/// known capabilities. Without parts it is the type of `last`.
///
/// Declared types are borrowed from the schema. Types each node at most once. Also looks up fields, attributes, entity
/// types and capabilities, copies the capabilities that operands gain, and compares node by node the types that need a
/// common type. If an `e` is repeated as in `e is T && e in f`, or as the next member of a set, it is typed once, and
/// its occurrences are compared node by node. Recursive: the stack grows with the height of the highest expression, not
/// with the number of parts.
///
/// # Errors
///
/// - The first error of the conjunction: of each operand in turn, the operand's own error, else `Unexpected` if the
///   operand is not boolean and not the only one. An operand of the type False ends the conjunction: those after it are
///   not typed.
/// - `NoMemory`: an allocation failed, or the count of references to a type would overflow; possible at any point.
///
/// Source: Cedar reference guide, "Policy validation".
pub fn judge_all<'a>(
    alloc: Global,
    env: TypingEnvironment<'a>,
    parts: &'a [Expr],
    last: &'a Expr,
) -> Result<StaticType<'a>, TypeFault>
    ensures typed { IfOk result (λ t. (L : CapabilityList)
        × Types (typing_environment env.entry) [] (joined parts.entry.now last.entry.now) (static_view t) L) }
    ensures faulty { IfErr result (λ f. f ≢ TypeFault.NoMemory
        → Faults (typing_environment env.entry) [] (joined parts.entry.now last.entry.now) f) }
{
    let mut known = Capabilities::new(alloc);
    let mut so_far = None;
    for part in parts {
        match left_type(alloc, env, part, &mut known) {
            Ok(truth) => {
                if !is_right_checked(truth) {
                    return Ok(StaticType::boolean(BooleanType::False));
                }
                so_far = and_one_more(so_far, truth);
            }
            Err(fault) => return Err(fault),
        }
    }
    match type_of(alloc, last, env, &mut known) {
        Ok(typed) => and_last(so_far, typed.kind),
        Err(fault) => Err(fault),
    }
}
