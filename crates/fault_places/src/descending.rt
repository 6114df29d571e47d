//! The path to the expression that a type error blames.
ghost use Rattle.std.specs.Prelude.{◌≡◌, [], map, IfOk};
ghost use Rattle.typing.specs.declared.fault.TypeFault.{TypeFault};
ghost use Rattle.typing.specs.Faults.{Faults};
ghost use Rattle.type_checker.specs.Views.{typing_environment, static_view};
ghost use Rattle.typing.specs.BlamedExpressions.{blamed};

use crate::steps::{Step, step_from};
use grammar_core::Expr;
use plain::NoMemory;
use std::alloc::Global;
use type_checker::{Capability, StaticType, TypingEnvironment};

/// What an error blames in one environment.
#[derive(Drop)]
pub struct BlamedForm<'a> {
    /// The indexes of operands that lead from the whole expression to the blamed one.
    pub path: Vec<usize>,
    /// The form whose demand is not met: the blamed expression, or the form that it is an operand of.
    pub form: &'a Expr,
    /// The types of the operands that the demand is about.
    pub types: Vec<StaticType<'a>>,
}

/// Returns the form whose demand is not met in the expression `whole`, which has an error. Writes to `path` the path to
/// the blamed expression, and to `types` the types that the demand is about.
///
/// `known` and `path` are empty at first.
pub(crate) fn descend<'a>(
    alloc: Global,
    env: TypingEnvironment<'a>,
    known: &mut Vec<Capability<'a>>,
    path: &mut Vec<usize>,
    types: &mut Vec<StaticType<'a>>,
    whole: &'a Expr,
) -> Result<&'a Expr, NoMemory>
    requires known { known.old.items ≡ [] }
    requires path { path.old.items ≡ [] }
    ensures { IfOk result (λ form. (n : TypeFault)
        (h : Faults (typing_environment env.entry) [] whole.entry.now n)
        → blamed h ≡ record { path = path.new.items; form = form.now; types = map static_view types.new.items }) }
{
    let mut form = whole;
    'down: loop {
        match step_from(alloc, env, known, types, form) {
            Err(error) => return Err(error),
            Ok(None) => return Ok(form),
            Ok(Some(step)) => {
                let Step { at, faulty } = step;
                path.push(at)?;
                match faulty {
                    Some(operand) => form = operand,
                    None => return Ok(form),
                }
            }
        }
    }
}
