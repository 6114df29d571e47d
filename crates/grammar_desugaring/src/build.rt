//! Builds the core expression of a tree.
ghost use Rattle.std.specs.Prelude.{◌≡◌, IfOk, map};
ghost use Rattle.std.specs.List.{AllByRecursion, fold};
ghost use Rattle.grammar_desugaring.specs.Core as spec;
ghost use Rattle.grammar_desugaring.specs.Core.{core_of, negated};
ghost use Rattle.grammar_desugaring.specs.inner.WellFormed.{WellFormed, AllWellFormed, WellFormedEntry, WellFormedTerm};
ghost use Rattle.grammar_desugaring.specs.inner.WellFormed.{WellFormedAccess};

use crate::calls::{call, call_with_row};
use crate::forms::{
    Chain, apply, compare, field, has, if_then_else, is, is_in, join_next, like, named,
};
use crate::leaves::{negated_literal, number_literal, text_literal, uid_literal, variable};
use crate::measuring::function_at;
use crate::pairs::{add, both};
use crate::words::name;
use grammar_core::{Expr, Literal, Named, Unary, method_named};
use grammar_syntax::{Access, ExprTree, RecordEntry, Term, spelling};
use plain::{Boxed, Items, NoMemory};
use std::alloc::Global;

/// Returns the core expression of a tree. If the tree has errors, the expression has no meaning.
#[cycle(build)]
pub(crate) fn build_tree(alloc: Global, text: &str, tree: &ExprTree) -> Result<Expr, NoMemory>
    requires { WellFormed text.now tree.now }
    ensures { IfOk result (λ e. e ≡ core_of text.now tree.now) }
{
    match tree {
        ExprTree::Boolean(value) => Ok(Expr::Literal(Literal::Boolean(*value))),
        ExprTree::Number(token) => Ok(number_literal(text, *token)),
        ExprTree::Text(token) => text_literal(alloc, text, *token),
        ExprTree::Variable(word) => Ok(variable(*word)),
        ExprTree::Uid(uid) => uid_literal(alloc, text, uid),
        ExprTree::Call(path, arguments) => call(
            alloc,
            function_at(text, path),
            build_all(alloc, text, arguments.as_slice()),
        ),
        ExprTree::Parentheses(inner) => build_tree(alloc, text, inner),
        ExprTree::Set(members) => Ok(Expr::Set(build_all(alloc, text, members.as_slice())?)),
        ExprTree::Record(entries) => Ok(Expr::Record(build_entries(
            alloc,
            text,
            entries.as_slice(),
        )?)),
        ExprTree::Member(inner, accesses) => build_accesses(alloc, text, accesses, inner),
        ExprTree::Not(inner) => apply(alloc, Unary::Not, build_tree(alloc, text, inner)),
        ExprTree::Minus(inner) => build_behind_minus(alloc, text, inner),
        ExprTree::Product(inner, more) => build_chain(alloc, text, more, inner, Chain::Product),
        ExprTree::Sum(inner, terms) => build_terms(alloc, text, terms, inner),
        ExprTree::Compare(left, operator, right) => {
            compare(alloc, *operator, build_both(alloc, text, left, right))
        }
        ExprTree::Has(inner, key) => has(alloc, text, build_tree(alloc, text, inner), *key),
        ExprTree::Like(inner, token) => {
            like(alloc, text, build_tree(alloc, text, inner), *token)
        }
        ExprTree::Is(inner, path) => is(alloc, text, build_tree(alloc, text, inner), path),
        ExprTree::IsIn(inner, path, outer) => {
            is_in(alloc, text, build_both(alloc, text, inner, outer), path)
        }
        ExprTree::And(inner, more) => build_chain(alloc, text, more, inner, Chain::And),
        ExprTree::Or(inner, more) => build_chain(alloc, text, more, inner, Chain::Or),
        ExprTree::If(test, consequent, alternative) => {
            let first = build_tree(alloc, text, test);
            let second = build_tree(alloc, text, consequent);
            let third = build_tree(alloc, text, alternative);
            if_then_else(alloc, first, second, third)
        }
    }
}

/// Returns the core expression of a minus and the operand `tree`. A minus before a number belongs to the number.
#[cycle(build)]
fn build_behind_minus(alloc: Global, text: &str, tree: &ExprTree) -> Result<Expr, NoMemory>
    requires { WellFormed text.now tree.now }
    ensures { IfOk result (λ e. e ≡ negated text.now tree.now) }
{
    match tree {
        ExprTree::Number(token) => Ok(negated_literal(text, *token)),
        _ => apply(alloc, Unary::Negate, build_tree(alloc, text, tree)),
    }
}

/// Returns the core expressions of two trees.
#[cycle(build)]
fn build_both(
    alloc: Global,
    text: &str,
    left: &Boxed<ExprTree>,
    right: &Boxed<ExprTree>,
) -> Result<(Expr, Expr), NoMemory>
    requires { WellFormed text.now left.now × WellFormed text.now right.now }
    ensures { IfOk result (λ pair. pair ≡ (core_of text.now left.now, core_of text.now right.now)) }
{
    let first = build_tree(alloc, text, left);
    both(first, build_tree(alloc, text, right))
}

/// Returns the core expressions of some trees, in order.
#[cycle(build)]
fn build_all(alloc: Global, text: &str, trees: &[ExprTree]) -> Result<Items<Expr>, NoMemory>
    requires { AllWellFormed text.now trees.now }
    ensures { IfOk result (λ es. es ≡ map (core_of text.now) trees.now) }
{
    let mut row = Vec::with_capacity(alloc, trees.len())?;
    for tree in trees {
        add(&mut row, build_tree(alloc, text, tree))?;
    }
    Ok(Items::from_vec(row))
}

/// Returns the fields that the entries of a record denote, in order.
#[cycle(build)]
fn build_entries(
    alloc: Global,
    text: &str,
    entries: &[RecordEntry<ExprTree>],
) -> Result<Items<Named<Expr>>, NoMemory>
    requires { AllByRecursion (WellFormedEntry text.now) entries.now }
    ensures { IfOk result (λ fs. fs ≡ map (spec.field text.now) (map (spec.in_entry (core_of text.now)) entries.now)) }
{
    let mut row = Vec::with_capacity(alloc, entries.len())?;
    for entry in entries {
        let key = name(alloc, text, entry.key);
        add(&mut row, named(key, build_tree(alloc, text, &entry.value)))?;
    }
    Ok(Items::from_vec(row))
}

/// Returns the core expression of the operands `first` and `more` of a chain, grouped to the left.
#[cycle(build)]
fn build_chain(
    alloc: Global,
    text: &str,
    more: &Items<ExprTree>,
    first: &Boxed<ExprTree>,
    chain: Chain,
) -> Result<Expr, NoMemory>
    requires { WellFormed text.now first.now × AllWellFormed text.now more.now }
    ensures { IfOk result
        (λ e. e ≡ fold (spec.joined_by chain) (core_of text.now first.now) (map (core_of text.now) more.now)) }
{
    let trees = more.as_slice();
    let mut left = build_tree(alloc, text, first)?;
    for tree in trees {
        left = join_next(alloc, chain, left, build_tree(alloc, text, tree))?;
    }
    Ok(left)
}

/// Returns the core expression of the sum of the operand `first` and the terms `more`, grouped to the left.
#[cycle(build)]
fn build_terms(
    alloc: Global,
    text: &str,
    more: &Items<Term<ExprTree>>,
    first: &Boxed<ExprTree>,
) -> Result<Expr, NoMemory>
    requires { WellFormed text.now first.now × AllByRecursion (WellFormedTerm text.now) more.now }
    ensures { IfOk result
        (λ e. e ≡ fold spec.added (core_of text.now first.now) (map (spec.in_term (core_of text.now)) more.now)) }
{
    let terms = more.as_slice();
    let mut left = build_tree(alloc, text, first)?;
    for term in terms {
        let right = build_tree(alloc, text, &term.operand);
        left = join_next(alloc, Chain::Sum(term.sign), left, right)?;
    }
    Ok(left)
}

/// Returns the core expression of a receiver with the accesses `more`.
#[cycle(build)]
fn build_accesses(
    alloc: Global,
    text: &str,
    more: &Items<Access<Items<ExprTree>>>,
    receiver: &Boxed<ExprTree>,
) -> Result<Expr, NoMemory>
    requires { WellFormed text.now receiver.now × AllByRecursion (WellFormedAccess text.now) more.now }
    ensures { IfOk result
        (λ e. e
        ≡ fold (spec.accessed text.now) (core_of text.now receiver.now)
        (map (spec.in_access (core_of text.now)) more.now)) }
{
    let accesses = more.as_slice();
    let mut left = build_tree(alloc, text, receiver)?;
    for access in accesses {
        left = build_access(alloc, text, access, left)?;
    }
    Ok(left)
}

/// Returns the expression of one access to a receiver.
#[cycle(build)]
fn build_access(
    alloc: Global,
    text: &str,
    access: &Access<Items<ExprTree>>,
    receiver: Expr,
) -> Result<Expr, NoMemory>
    requires { WellFormedAccess text.now access.now }
    ensures { IfOk result (λ e. e ≡ spec.accessed text.now receiver (spec.in_access (core_of text.now) access.now)) }
{
    match access {
        Access::Field(key) => field(alloc, text, receiver, *key),
        Access::Method(token, arguments) => {
            let method = method_named(spelling(text, *token));
            call_with_row(
                alloc,
                method,
                receiver,
                build_all(alloc, text, arguments.as_slice()),
            )
        }
    }
}
