//! The conditions of a policy: their measure (height, number of nodes, and error) and their core expression. Both are
//! composed from the last condition to the first, since the conditions are grouped to the right.
ghost use Rattle.std.specs.Prelude.{◌≡◌, [], IfOk, IsTrue};
ghost use Rattle.std.specs.List.{AllByRecursion};
ghost use Rattle.grammar_core.specs.declared.expr.Expr.TheVariants as core;
ghost use Rattle.grammar_desugaring.specs.Faults.{faults_of};
ghost use Rattle.grammar_desugaring.specs.TreeMeasures.{of};
ghost use Rattle.grammar_parsing.specs.WellFormed.{WellFormedCondition};
ghost use Rattle.policy_grammar.specs.Conditions.{condition_of, conditions_of, condition_faults};
ghost use Rattle.grammar_desugaring.specs.BuiltFrom.{IsBuiltFrom};
ghost use Rattle.policy_grammar.specs.inner.Parts.{AreSound};
ghost use Rattle.policy_grammar.specs.PolicyExpression.{truth};

use grammar_core::{Expr, Literal, Unary};
use grammar_desugaring::{Measure, build_expr, measure_expr, measures_add_up};
use grammar_parsing::{Condition, ConditionWord};
use plain::{NoMemory, Shared, pair_with};
use std::alloc::Global;

/// Returns the measure of a condition. The core expression of `unless { e }` is `!e`.
fn measure_condition(alloc: Global, text: &str, condition: &Condition) -> Result<Measure, NoMemory>
    requires { IsBuiltFrom text.now (λ tokens. WellFormedCondition tokens condition.now) }
    ensures { IfOk result (λ j. j ≡ of (condition_of text.now condition.now)
        (faults_of text.now condition.now.expression)) }
{
    measures_add_up();
    let measure = measure_expr(alloc, text, &condition.expression)?;
    match condition.word {
        ConditionWord::When => Ok(measure),
        ConditionWord::Unless => Ok(measure.node_measure()),
    }
}

/// Returns the measure of the conditions: the height and the number of nodes of their core expression, and their error
/// at the least offset. Allocates only for the keys of records.
pub(crate) fn measure_conditions(
    alloc: Global,
    text: &str,
    conditions: &[Condition],
) -> Result<Measure, NoMemory>
    requires { IsBuiltFrom text.now (λ tokens. AllByRecursion (WellFormedCondition tokens) conditions.now) }
    ensures { IfOk result (λ j. j ≡ of (conditions_of text.now conditions.now)
        (condition_faults text.now conditions.now)) }
{
    measures_add_up();
    let mut left = conditions.len();
    if left == 0 {
        return Ok(Measure {
            height: 1,
            node_count: 1,
            fault: None,
        });
    }
    left -= 1;
    let mut joined = measure_condition(alloc, text, &conditions[left])?;
    while left > 0 {
        left -= 1;
        let first = measure_condition(alloc, text, &conditions[left])?;
        joined = first.paired(joined);
    }
    Ok(joined)
}

/// Builds the core expression of a condition that has no errors.
fn build_condition(alloc: Global, text: &str, condition: &Condition) -> Result<Expr, NoMemory>
    requires is_well_formed { IsBuiltFrom text.now (λ tokens. WellFormedCondition tokens condition.now) }
    requires sound { faults_of text.now condition.now.expression ≡ [] }
    ensures { IfOk result (λ e. e ≡ condition_of text.now condition.now) }
{
    let expr = build_expr(alloc, text, &condition.expression)?;
    match condition.word {
        ConditionWord::When => Ok(expr),
        ConditionWord::Unless => Expr::unary(alloc, Unary::Not, expr),
    }
}

/// Returns the conjunction of `condition` and `joined`, the conjunction of the conditions after it.
fn join_before(
    alloc: Global,
    text: &str,
    condition: &Condition,
    joined: Expr,
) -> Result<Expr, NoMemory>
    requires is_well_formed { IsBuiltFrom text.now (λ tokens. WellFormedCondition tokens condition.now) }
    requires sound { faults_of text.now condition.now.expression ≡ [] }
    ensures { IfOk result (λ e. e ≡ core.And (condition_of text.now condition.now) joined) }
{
    let (joined, first) = pair_with(joined, build_condition(alloc, text, condition))?;
    Expr::and(alloc, first, joined)
}

/// Builds the core expression of conditions that have no errors.
pub(crate) fn build_conditions(
    alloc: Global,
    text: &str,
    conditions: &[Condition],
) -> Result<Expr, NoMemory>
    requires is_well_formed { IsBuiltFrom text.now (λ ts. AllByRecursion (WellFormedCondition ts) conditions.now) }
    requires sound { AreSound text.now conditions.now }
    ensures { IfOk result (λ e. e ≡ conditions_of text.now conditions.now) }
{
    let mut left = conditions.len();
    if left == 0 {
        return Ok(Expr::Literal(Literal::Boolean(true)));
    }
    left -= 1;
    let mut joined = build_condition(alloc, text, &conditions[left])?;
    while left > 0 {
        left -= 1;
        joined = join_before(alloc, text, &conditions[left], joined)?;
    }
    Ok(joined)
}

/// Returns whether a core expression is `true`.
fn is_truth(expr: &Expr) -> bool
    ensures { IsTrue result → expr.now ≡ truth }
{
    matches!(expr, Expr::Literal(Literal::Boolean(true)))
}

/// Returns the core expression `true`. If `known` is `true`, shares it and does not allocate.
fn shared_truth(alloc: Global, known: Option<&Shared<Expr>>) -> Result<Shared<Expr>, NoMemory>
    ensures { IfOk result (λ e. e ≡ truth) }
{
    match known {
        Some(expr) if is_truth(expr) => expr.share(),
        _ => Shared::new(alloc, Expr::Literal(Literal::Boolean(true))),
    }
}

/// Returns the core expression of conditions that have no errors. If there are no conditions, the expression is `true`,
/// and is shared with `known` if `known` is `true`. `known` is another core expression, such as the condition of the
/// previous policy.
pub(crate) fn conditions_like(
    alloc: Global,
    text: &str,
    conditions: &[Condition],
    known: Option<&Shared<Expr>>,
) -> Result<Shared<Expr>, NoMemory>
    requires is_well_formed { IsBuiltFrom text.now (λ ts. AllByRecursion (WellFormedCondition ts) conditions.now) }
    requires sound { AreSound text.now conditions.now }
    ensures { IfOk result (λ e. e ≡ conditions_of text.now conditions.now) }
{
    if conditions.is_empty() {
        return shared_truth(alloc, known);
    }
    let built = build_conditions(alloc, text, conditions)?;
    Shared::new(alloc, built)
}
