//! What follows an expression: the tokens after it, given the tokens that begin with it and its tree.
ghost use Rattle.std.specs.Prelude.{◌≡◌, ◌+◌, drop, length, map};
ghost use Rattle.fault_places.specs.TokenCounts.{tree_count, access_tree_count, term_count, entry_count};
ghost use Rattle.fault_places.specs.TokenCounts.{each_count, total, lone_count};

use crate::leaves::{skip, tokens_after_opened, tokens_after_path, tokens_after_uid};
use grammar_syntax::{Access, ExprTree, KeyTree, RecordEntry, Term, Token};
use plain::{Boxed, Items};

/// Returns the tokens after the expression with the tree `tree`, which `tokens` begin with.
///
/// O(nodes of `tree`). Does not allocate.
#[cycle(behind)]
pub(crate) fn tokens_after_tree<'t>(tree: &ExprTree, tokens: &'t [Token]) -> &'t [Token]
    ensures { result.now ≡ drop (tree_count tree.now) tokens.entry.now }
{
    match tree {
        ExprTree::Uid(uid) => tokens_after_uid(uid, tokens),
        ExprTree::Call(path, arguments) => {
            tokens_after_row(arguments, skip(tokens_after_path(path, tokens), 1))
        }
        ExprTree::Parentheses(inner) => tokens_after_piece(inner, skip(tokens, 1)),
        ExprTree::Set(members) => tokens_after_row(members, skip(tokens, 1)),
        ExprTree::Record(entries) => {
            let row = tokens_after_opened(entries.len(), skip(tokens, 1));
            tokens_after_entries(entries.as_slice(), row)
        }
        ExprTree::Member(inner, accesses) => {
            tokens_after_accesses(accesses.as_slice(), tokens_after_operand(inner, tokens))
        }
        ExprTree::Not(inner) | ExprTree::Minus(inner) => {
            tokens_after_operand(inner, skip(tokens, 1))
        }
        ExprTree::Product(first, more) | ExprTree::And(first, more) | ExprTree::Or(first, more) => {
            tokens_after_each(more.as_slice(), tokens_after_operand(first, tokens))
        }
        ExprTree::Sum(first, terms) => {
            tokens_after_terms(terms.as_slice(), tokens_after_operand(first, tokens))
        }
        ExprTree::Compare(left, _, right) => {
            tokens_after_operand(right, tokens_after_piece(left, tokens))
        }
        ExprTree::Has(inner, _) | ExprTree::Like(inner, _) => {
            skip(tokens_after_operand(inner, tokens), 2)
        }
        ExprTree::Is(inner, path) => tokens_after_path(path, tokens_after_piece(inner, tokens)),
        ExprTree::IsIn(inner, path, outer) => {
            let tested = tokens_after_path(path, tokens_after_piece(inner, tokens));
            tokens_after_operand(outer, skip(tested, 1))
        }
        ExprTree::If(test, consequent, alternative) => {
            let tested = tokens_after_piece(test, skip(tokens, 1));
            let chosen = tokens_after_piece(consequent, tested);
            tokens_after_operand(alternative, chosen)
        }
        _ => skip(tokens, 1),
    }
}

/// Returns the tokens after an operand, which `tokens` begin with.
///
/// This is a function of its own so that the box is opened in one place.
#[cycle(behind)]
pub(crate) fn tokens_after_operand<'t>(
    operand: &Boxed<ExprTree>,
    tokens: &'t [Token],
) -> &'t [Token]
    ensures { result.now ≡ drop (tree_count operand.now) tokens.entry.now }
{
    tokens_after_tree(operand, tokens)
}

/// Returns the tokens after an operand and one further token, such as an operator; `tokens` begin with the operand.
#[cycle(behind)]
pub(crate) fn tokens_after_piece<'t>(operand: &Boxed<ExprTree>, tokens: &'t [Token]) -> &'t [Token]
    ensures { result.now ≡ drop 1 (drop (tree_count operand.now) tokens.entry.now) }
{
    skip(tokens_after_operand(operand, tokens), 1)
}

/// Returns the tokens after a list's closing bracket; `tokens` are those after its opening one.
#[cycle(behind)]
fn tokens_after_row<'t>(items: &Items<ExprTree>, tokens: &'t [Token]) -> &'t [Token]
    ensures { result.now
        ≡ drop (lone_count (length items.now) + each_count (map tree_count items.now)) tokens.entry.now }
{
    let trees = items.as_slice();
    tokens_after_each(trees, tokens_after_opened(trees.len(), tokens))
}

/// Returns the tokens after expressions, each of which has one further token before or after it, such as a comma.
#[cycle(behind)]
pub(crate) fn tokens_after_each<'t>(trees: &[ExprTree], tokens: &'t [Token]) -> &'t [Token]
    ensures { result.now ≡ drop (each_count (map tree_count trees.now)) tokens.entry.now }
{
    let mut rest = tokens;
    for tree in trees {
        rest = skip(tokens_after_tree(tree, rest), 1);
    }
    rest
}

/// Returns the tokens after further terms of a sum, each with its sign.
#[cycle(behind)]
pub(crate) fn tokens_after_terms<'t>(terms: &[Term<ExprTree>], tokens: &'t [Token]) -> &'t [Token]
    ensures { result.now ≡ drop (each_count (map term_count terms.now)) tokens.entry.now }
{
    let mut rest = tokens;
    for term in terms {
        rest = skip(tokens_after_tree(&term.operand, rest), 1);
    }
    rest
}

/// Returns the tokens after entries of a record, each with its key, its colon, and a comma or bracket after it.
#[cycle(behind)]
pub(crate) fn tokens_after_entries<'t>(
    entries: &[RecordEntry<ExprTree>],
    tokens: &'t [Token],
) -> &'t [Token]
    ensures { result.now ≡ drop (each_count (map entry_count entries.now)) tokens.entry.now }
{
    let mut rest = tokens;
    for entry in entries {
        rest = skip(tokens_after_tree(&entry.value, skip(rest, 2)), 1);
    }
    rest
}

/// Returns the tokens after accesses, such as `.name` or `.name(..)`.
#[cycle(behind)]
pub(crate) fn tokens_after_accesses<'t>(
    accesses: &[Access<Items<ExprTree>>],
    tokens: &'t [Token],
) -> &'t [Token]
    ensures { result.now ≡ drop (total (map access_tree_count accesses.now)) tokens.entry.now }
{
    let mut rest = tokens;
    for access in accesses {
        rest = tokens_after_access(access, rest);
    }
    rest
}

/// Returns the tokens after one access.
#[cycle(behind)]
fn tokens_after_access<'t>(access: &Access<Items<ExprTree>>, tokens: &'t [Token]) -> &'t [Token]
    ensures { result.now ≡ drop (access_tree_count access.now) tokens.entry.now }
{
    match access {
        Access::Field(KeyTree::Word(_)) => skip(tokens, 2),
        Access::Field(KeyTree::Quoted(_)) => skip(tokens, 3),
        Access::Method(_, arguments) => tokens_after_row(arguments, skip(tokens, 3)),
    }
}
