//! The judgement on an expression.
ghost use Rattle.std.specs.Prelude.{IfOk};
ghost use Rattle.type_checker.specs.Views.{typing_environment};
ghost use Rattle.fault_places.specs.inner.Steps.{IsJudged};

use grammar_core::Expr;
use plain::NoMemory;
use std::alloc::Global;
use type_checker::{BooleanType, Capability, StaticType, TypingEnvironment, judge_under};
use validator::TypeFault;

/// The judgement on an expression.
pub(crate) enum Judgement {
    /// The expression has this error.
    Faulty(TypeFault),
    /// The expression has a type: this boolean type, or `None` for another type.
    Typed(Option<BooleanType>),
}

/// Returns the judgement on an expression under the capabilities `known`.
///
/// Appends the type to `types`, and to `known` the capabilities that the expression gains. An expression with an error
/// leaves `known` unchanged.
pub(crate) fn judge<'a>(
    alloc: Global,
    env: TypingEnvironment<'a>,
    known: &mut Vec<Capability<'a>>,
    types: &mut Vec<StaticType<'a>>,
    expr: &'a Expr,
) -> Result<Judgement, NoMemory>
    ensures { IfOk result (IsJudged (typing_environment env.entry) known.old.items types.old.items expr.entry.now
        known.new.items types.new.items) }
{
    match judge_under(alloc, env, known.as_slice(), expr) {
        Ok(typed) => {
            let truth = typed.kind.as_boolean();
            typed.add_to(types, known)?;
            Ok(Judgement::Typed(truth))
        }
        Err(fault) => match fault {
            TypeFault::NoMemory => Err(NoMemory),
            _ => Ok(Judgement::Faulty(fault)),
        },
    }
}
