//! One step from an expression with an error towards the blamed expression.
ghost use Rattle.std.specs.Prelude.{◌≡◌, ◌<◌, IfOk};
ghost use Rattle.grammar_core.specs.declared.expr.Expr.TheViews.{out-Expr};
ghost use Rattle.type_checker.specs.Views.{typing_environment};
ghost use Rattle.fault_places.specs.inner.Steps.{IsStep, after, after_left};

use crate::judging::{Judgement, judge};
use grammar_core::Expr;
use plain::NoMemory;
use std::alloc::Global;
use type_checker::{BooleanType, Capability, StaticType, TypingEnvironment, truncate_types};
use typing::operand;

/// A step from a form that has an error to one of its operands.
pub(crate) struct Step<'a> {
    /// The index of the operand.
    pub(crate) at: usize,
    /// The operand, if it has the error; `None` if the form blames it for an unmet demand.
    pub(crate) faulty: Option<&'a Expr>,
}

/// What follows an operand of a form that has an error, if the operand has a type.
pub(crate) enum Next {
    /// The form blames the operand.
    Blamed,
    /// The index of the next operand, and the numbers of the known capabilities and of the types that are kept.
    Operand(usize, usize, usize),
}

/// Returns what follows the operand at the index `at` of an `&&` or `||`. The operand has the boolean type `truth`, or
/// another type if `truth` is `None`. After the left operand `known` capabilities are kept.
fn after_left(at: usize, truth: Option<BooleanType>, known: usize) -> Next
    ensures { result ≡ after_left at truth known }
{
    match truth {
        Some(_) => {
            if at == 0 {
                Next::Operand(1, known, 0)
            } else {
                Next::Blamed
            }
        }
        None => Next::Blamed,
    }
}

/// Returns what follows the operand at the index `at` of the form `expr`. The operand has the boolean type `truth`, or
/// another type if `truth` is `None`.
///
/// `start` capabilities are known before the form, `known` behind the operand, and `types` types are collected.
fn after(
    expr: &Expr,
    at: usize,
    truth: Option<BooleanType>,
    start: usize,
    known: usize,
    types: usize,
) -> Next
    requires { at < usize.MAX }
    ensures { result ≡ after (out-Expr expr.now) at truth start known types }
{
    match expr {
        Expr::If(_, _, _) => {
            if at == 0 {
                match truth {
                    Some(truth) => {
                        if truth.is_false() {
                            Next::Operand(2, start, 0)
                        } else {
                            Next::Operand(1, known, 0)
                        }
                    }
                    None => Next::Blamed,
                }
            } else {
                Next::Operand(at + 1, start, types)
            }
        }
        Expr::And(_, _) => after_left(at, truth, known),
        Expr::Or(_, _) => after_left(at, truth, start),
        Expr::Unary(_, _) => Next::Blamed,
        Expr::Has(_, _) => Next::Blamed,
        _ => Next::Operand(at + 1, start, types),
    }
}

/// Returns the step from a form that has an error under the capabilities `known`, or `None` if the form blames itself.
///
/// A step to an operand that has the error replaces `known` by the capabilities that apply there. Otherwise `types` is
/// replaced by the types of the operands that the unmet demand is about.
pub(crate) fn step_from<'a>(
    alloc: Global,
    env: TypingEnvironment<'a>,
    known: &mut Vec<Capability<'a>>,
    types: &mut Vec<StaticType<'a>>,
    expr: &'a Expr,
) -> Result<Option<Step<'a>>, NoMemory>
    ensures { IfOk result (IsStep (typing_environment env.entry) known.old.items expr.entry.now known.new.items
        types.new.items) }
{
    truncate_types(types, 0);
    let start = known.len();
    let mut at = 0usize;
    'each: loop {
        match operand(expr, at) {
            Some(next) => match judge(alloc, env, known, types, next) {
                Err(error) => return Err(error),
                Ok(Judgement::Faulty(_)) => return Ok(Some(Step {
                    at,
                    faulty: Some(next),
                })),
                Ok(Judgement::Typed(truth)) => {
                    let count = known.len();
                    let collected = types.len();
                    match after(expr, at, truth, start, count, collected) {
                        Next::Blamed => return Ok(Some(Step { at, faulty: None })),
                        Next::Operand(behind, capabilities, demanded) => {
                            known.truncate(capabilities);
                            truncate_types(types, demanded);
                            at = behind;
                        }
                    }
                }
            },
            None => return Ok(None),
        }
    }
}
