//! Functions that measure a tree: the size of its core expression, which is not built, and its error at the least
//! offset. They allocate only for the keys of records.
ghost use Rattle.std.specs.Prelude.{◌≡◌, IfOk};
ghost use Rattle.std.specs.List.{AllByRecursion, fold};
ghost use Rattle.grammar_syntax.specs.declared.token.TokenKind.TheVariants as k;
ghost use Rattle.grammar_syntax.specs.Lexing.{spelling_of};
ghost use Rattle.grammar_syntax.specs.Kinds.{only};
ghost use Rattle.grammar_syntax.specs.Grammar.{identifiers};
ghost use Rattle.grammar_desugaring.specs.Core.{function};
ghost use Rattle.grammar_core.specs.Operators.{method_takes, method_of};
ghost use Rattle.grammar_desugaring.specs.Numbers as number;
ghost use Rattle.grammar_desugaring.specs.ReportedErrors.{least};
ghost use Rattle.grammar_desugaring.specs.Faults.{range, call_faults, function_faults};
ghost use Rattle.grammar_desugaring.specs.TreeMeasures.{measured, measured_negated};
ghost use Rattle.grammar_desugaring.specs.inner.WellFormed.{WellFormed, TokenIn, PathIn, AllWellFormed};
ghost use Rattle.grammar_desugaring.specs.inner.WellFormed.{WellFormedEntry};
ghost use Rattle.grammar_desugaring.specs.inner.WellFormed.{WellFormedTerm};
ghost use Rattle.grammar_desugaring.specs.inner.WellFormed.{WellFormedAccess};
ghost use Rattle.grammar_desugaring.specs.inner.Giving.{Gave};
ghost use Rattle.grammar_desugaring.specs.Sums as spec;

use crate::fault::DesugarFault;
use crate::measure::Measure;
use crate::numbers::{fits, fits_negated};
use crate::repeats::repeated_key;
use grammar_core::{UnaryCall, function_named, method_named};
use grammar_syntax::{Access, Comparison, ExprTree, PathTree, RecordEntry, Term, Token, spelling};
use plain::{Boxed, Items, NoMemory};
use std::alloc::Global;

/// A measure, or `NoMemory`.
type MeasureResult = Result<Measure, NoMemory>;

/// Two measures, or `NoMemory`.
type BothMeasured = Result<(Measure, Measure), NoMemory>;

/// Returns the error of the number at `token`, or `None` if `within` is true. `within` is whether the number is in
/// range.
fn range_fault(within: bool, token: Token) -> Option<DesugarFault>
    ensures { result ≡ least (range within token) }
{
    if within {
        None
    } else {
        Some(DesugarFault::NumberRange(token.start))
    }
}

/// Returns the measure of the number at `token`, without a minus before it.
fn measure_number(text: &str, token: Token) -> Measure
    requires { TokenIn text.now (only k.Number) token }
    ensures { result ≡ spec.leaf (least (range (number.fits (spelling_of text.now token)) token)) }
{
    let digits = spelling(text, token).as_bytes();
    Measure::leaf(range_fault(fits(digits), token))
}

/// Returns the measure of the number at `token` with the minus before it.
fn measure_negated_number(text: &str, token: Token) -> Measure
    requires { TokenIn text.now (only k.Number) token }
    ensures { result ≡ spec.leaf (least (range (number.fits_negated (spelling_of text.now token)) token)) }
{
    let digits = spelling(text, token).as_bytes();
    Measure::leaf(range_fault(fits_negated(digits), token))
}

/// Returns the error of a call at offset `at` with `count` arguments, or `None` if the called name takes that many.
/// `takes` is the number of arguments that the name takes, or `None` if the name is unknown.
fn call_fault(at: usize, takes: Option<usize>, count: usize) -> Option<DesugarFault>
    ensures { result ≡ least (call_faults at takes count) }
{
    match takes {
        None => Some(DesugarFault::UnknownCall(at)),
        Some(wanted) => {
            if count == wanted {
                None
            } else {
                Some(DesugarFault::Arity(at))
            }
        }
    }
}

/// Returns the function that a Path names, if it names one: only a Path of one word can.
pub(crate) fn function_at(text: &str, path: &PathTree) -> Option<UnaryCall>
    requires { PathIn text.now path.now }
    ensures { result ≡ function text.now path.now }
{
    match path.more.as_slice() {
        [] => function_named(spelling(text, path.first)),
        _ => None,
    }
}

/// Returns the error of a call of the function `path` with `count` arguments, if there is one.
fn function_fault(text: &str, path: &PathTree, count: usize) -> Option<DesugarFault>
    requires { PathIn text.now path.now }
    ensures { result ≡ least (function_faults text.now path.now count) }
{
    let takes = match function_at(text, path) {
        None => None,
        Some(_) => Some(1),
    };
    call_fault(path.first.start, takes, count)
}

/// Returns the error of a call of the method `name` with `count` arguments, if there is one.
fn method_fault(text: &str, name: Token, count: usize) -> Option<DesugarFault>
    requires { TokenIn text.now identifiers name }
    ensures { result ≡ least (call_faults name.start (method_takes (method_of (spelling_of text.now name))) count) }
{
    let takes = match method_named(spelling(text, name)) {
        None => None,
        Some(method) => Some(method.takes()),
    };
    call_fault(name.start, takes, count)
}

/// Returns the measure of a node, given the measure of its operands.
fn node_measure(operand: MeasureResult) -> MeasureResult
    ensures { IfOk result (λ j. Gave operand (λ i. j ≡ spec.node_measure i)) }
{
    Ok(operand?.node_measure())
}

/// Returns the measure of a function call, given the call's own error and the measure of its arguments.
fn call(fault: Option<DesugarFault>, arguments: MeasureResult) -> MeasureResult
    ensures { IfOk result (λ j. Gave arguments (λ i. j ≡ spec.called fault (spec.with_fault fault i))) }
{
    Ok(arguments?.with_fault(fault).called(fault))
}

/// Returns the measure of a record, given the error of its keys and the measure of its entries.
fn record(fault: Result<Option<DesugarFault>, NoMemory>, entries: MeasureResult) -> MeasureResult
    ensures { IfOk result (λ j. Gave fault (λ o. Gave entries (λ i. j ≡ spec.node_measure (spec.with_fault o i)))) }
{
    let fault = fault?;
    Ok(entries?.with_fault(fault).node_measure())
}

/// Returns the measure of `left operator right`. `>`, `>=` and `!=` become negations, which have one more node.
fn compare(operator: Comparison, operands: BothMeasured) -> MeasureResult
    ensures { IfOk result (λ j. Gave operands (λ pair. j ≡ spec.measured_compared operator pair.0 pair.1)) }
{
    let (left, right) = operands?;
    let both = left.paired(right);
    match operator {
        Comparison::Greater | Comparison::GreaterOrEqual | Comparison::NotEqual => Ok(
            both.node_measure(),
        ),
        Comparison::Less | Comparison::LessOrEqual | Comparison::Equal | Comparison::In => {
            Ok(both)
        }
    }
}

/// Returns the measure of `operand is path in ancestor`, whose core expression has the operand twice.
fn is_in(operands: BothMeasured) -> MeasureResult
    ensures { IfOk result
        (λ j. Gave operands (λ pair. j ≡ spec.paired (spec.node_measure pair.0) (spec.paired pair.0 pair.1))) }
{
    let (operand, ancestor) = operands?;
    Ok(operand.node_measure().paired(operand.paired(ancestor)))
}

/// Returns the measure of `if test then consequent else alternative`.
fn if_then_else(
    test: MeasureResult,
    consequent: MeasureResult,
    alternative: MeasureResult,
) -> MeasureResult
    ensures { IfOk result (λ j. Gave test (λ i. Gave consequent
        (λ k. Gave alternative (λ l. j ≡ spec.node_measure (spec.side_by_side i (spec.side_by_side k l)))))) }
{
    let test = test?;
    let consequent = consequent?;
    Ok(
        test.side_by_side(consequent.side_by_side(alternative?))
            .node_measure(),
    )
}

/// Returns the measure of a tree.
#[cycle(measuring)]
pub(crate) fn measure_tree(alloc: Global, text: &str, tree: &ExprTree) -> MeasureResult
    requires { WellFormed text.now tree.now }
    ensures { IfOk result (λ j. j ≡ measured text.now tree.now) }
{
    match tree {
        ExprTree::Boolean(_) => Ok(Measure::leaf(None)),
        ExprTree::Number(token) => Ok(measure_number(text, *token)),
        ExprTree::Text(_) => Ok(Measure::leaf(None)),
        ExprTree::Variable(_) => Ok(Measure::leaf(None)),
        ExprTree::Uid(_) => Ok(Measure::leaf(None)),
        ExprTree::Call(path, arguments) => call(
            function_fault(text, path, arguments.len()),
            measure_all(alloc, text, arguments.as_slice()),
        ),
        ExprTree::Parentheses(inner) => measure_tree(alloc, text, inner),
        ExprTree::Set(members) => node_measure(measure_all(alloc, text, members.as_slice())),
        ExprTree::Record(entries) => record(
            repeated_key(alloc, text, entries.as_slice()),
            measure_entries(alloc, text, entries.as_slice()),
        ),
        ExprTree::Member(inner, accesses) => measure_accesses(alloc, text, accesses, inner),
        ExprTree::Not(inner) => node_measure(measure_tree(alloc, text, inner)),
        ExprTree::Minus(inner) => measure_behind_minus(alloc, text, inner),
        ExprTree::Product(inner, more) => measure_chain(alloc, text, more, inner),
        ExprTree::Sum(inner, terms) => measure_terms(alloc, text, terms, inner),
        ExprTree::Compare(left, operator, right) => {
            compare(*operator, measure_both(alloc, text, left, right))
        }
        ExprTree::Has(inner, _) => node_measure(measure_tree(alloc, text, inner)),
        ExprTree::Like(inner, _) => node_measure(measure_tree(alloc, text, inner)),
        ExprTree::Is(inner, _) => node_measure(measure_tree(alloc, text, inner)),
        ExprTree::IsIn(inner, _, outer) => is_in(measure_both(alloc, text, inner, outer)),
        ExprTree::And(inner, more) => measure_chain(alloc, text, more, inner),
        ExprTree::Or(inner, more) => measure_chain(alloc, text, more, inner),
        ExprTree::If(test, consequent, alternative) => {
            let first = measure_tree(alloc, text, test);
            let second = measure_tree(alloc, text, consequent);
            let third = measure_tree(alloc, text, alternative);
            if_then_else(first, second, third)
        }
    }
}

/// Returns the measure of a minus and the operand `tree`. A minus before a number belongs to the number.
#[cycle(measuring)]
fn measure_behind_minus(alloc: Global, text: &str, tree: &ExprTree) -> MeasureResult
    requires { WellFormed text.now tree.now }
    ensures { IfOk result (λ j. j ≡ measured_negated text.now tree.now) }
{
    match tree {
        ExprTree::Number(token) => Ok(measure_negated_number(text, *token)),
        _ => node_measure(measure_tree(alloc, text, tree)),
    }
}

/// Returns the measures of two trees.
#[cycle(measuring)]
fn measure_both(
    alloc: Global,
    text: &str,
    left: &Boxed<ExprTree>,
    right: &Boxed<ExprTree>,
) -> BothMeasured
    requires { WellFormed text.now left.now × WellFormed text.now right.now }
    ensures { IfOk result (λ pair. pair ≡ (measured text.now left.now, measured text.now right.now)) }
{
    let first = measure_tree(alloc, text, left)?;
    let second = measure_tree(alloc, text, right)?;
    Ok((first, second))
}

/// Returns the measure of some trees side by side.
#[cycle(measuring)]
fn measure_all(alloc: Global, text: &str, trees: &[ExprTree]) -> MeasureResult
    requires { AllWellFormed text.now trees.now }
    ensures { IfOk result (λ j. j ≡ spec.measured_all text.now trees.now) }
{
    let mut row = Measure::nothing();
    for tree in trees {
        row = row.side_by_side(measure_tree(alloc, text, tree)?);
    }
    Ok(row)
}

/// Returns the measure of the values of a record's entries side by side.
#[cycle(measuring)]
fn measure_entries(alloc: Global, text: &str, entries: &[RecordEntry<ExprTree>]) -> MeasureResult
    requires { AllByRecursion (WellFormedEntry text.now) entries.now }
    ensures { IfOk result (λ j. j ≡ fold (spec.measured_entry text.now) spec.nothing entries.now) }
{
    let mut row = Measure::nothing();
    for entry in entries {
        row = row.side_by_side(measure_tree(alloc, text, &entry.value)?);
    }
    Ok(row)
}

/// Returns the measure of the chain of the operands `first` and `more`.
#[cycle(measuring)]
fn measure_chain(
    alloc: Global,
    text: &str,
    more: &Items<ExprTree>,
    first: &Boxed<ExprTree>,
) -> MeasureResult
    requires { WellFormed text.now first.now × AllWellFormed text.now more.now }
    ensures { IfOk result (λ j. j ≡ spec.measured_chain text.now (measured text.now first.now) more.now) }
{
    let trees = more.as_slice();
    let mut left = measure_tree(alloc, text, first)?;
    for tree in trees {
        left = left.paired(measure_tree(alloc, text, tree)?);
    }
    Ok(left)
}

/// Returns the measure of the sum of the operand `first` and the terms `more`.
#[cycle(measuring)]
fn measure_terms(
    alloc: Global,
    text: &str,
    more: &Items<Term<ExprTree>>,
    first: &Boxed<ExprTree>,
) -> MeasureResult
    requires { WellFormed text.now first.now × AllByRecursion (WellFormedTerm text.now) more.now }
    ensures { IfOk result (λ j. j ≡ fold (spec.measured_term text.now) (measured text.now first.now) more.now) }
{
    let terms = more.as_slice();
    let mut left = measure_tree(alloc, text, first)?;
    for term in terms {
        left = left.paired(measure_tree(alloc, text, &term.operand)?);
    }
    Ok(left)
}

/// Returns the measure of a receiver with the accesses `more`.
#[cycle(measuring)]
fn measure_accesses(
    alloc: Global,
    text: &str,
    more: &Items<Access<Items<ExprTree>>>,
    receiver: &Boxed<ExprTree>,
) -> MeasureResult
    requires { WellFormed text.now receiver.now × AllByRecursion (WellFormedAccess text.now) more.now }
    ensures { IfOk result (λ j. j ≡ fold (spec.measured_access text.now) (measured text.now receiver.now) more.now) }
{
    let accesses = more.as_slice();
    let mut left = measure_tree(alloc, text, receiver)?;
    for access in accesses {
        left = measure_access(alloc, text, access, left)?;
    }
    Ok(left)
}

/// Returns the measure of one access to a receiver, where `receiver` is the receiver's measure.
#[cycle(measuring)]
fn measure_access(
    alloc: Global,
    text: &str,
    access: &Access<Items<ExprTree>>,
    receiver: Measure,
) -> MeasureResult
    requires { WellFormedAccess text.now access.now }
    ensures { IfOk result (λ j. j ≡ spec.measured_access text.now receiver access.now) }
{
    match access {
        Access::Field(_) => Ok(receiver.node_measure()),
        Access::Method(name, arguments) => {
            let row = measure_all(alloc, text, arguments.as_slice())?;
            let fault = method_fault(text, *name, arguments.len());
            Ok(receiver.side_by_side(row.with_fault(fault)).called(fault))
        }
    }
}
