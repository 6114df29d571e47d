//! Written forms, and the form of the core node at a path.
//!
//! A written form is an expression of the syntax tree, or the front of a chain, such as `a + b` of `a + b + c`.
ghost use Rattle.std.specs.Prelude.{◌≡◌, List, drop, take, map, length, option_map, slice_get};
ghost use Rattle.fault_places.specs.TokenCounts.{path_count, tree_count};
ghost use Rattle.grammar_syntax.specs.declared.tree.ExprTree.{ExprTree};
ghost use Rattle.grammar_syntax.specs.declared.tree.ExprTree.TheViews.{out-ExprTree};
ghost use Rattle.fault_places.specs.Forms as spec;

use crate::behind::{
    tokens_after_accesses, tokens_after_each, tokens_after_entries, tokens_after_operand,
    tokens_after_piece, tokens_after_terms, tokens_after_tree,
};
use crate::leaves::{skip, tokens_after_path};
use grammar_syntax::{Access, Comparison, ExprTree, PathTree, RecordEntry, Term, Token};
use plain::{Boxed, Items};

/// Which core node of a written form is meant.
#[derive(Clone, Copy)]
pub(crate) enum FormNode {
    /// The node of the whole form.
    Whole,
    /// In a chain, the node of its first operand with this many further pieces.
    First(usize),
    /// `e is T` of `e is T in f`.
    Test,
    /// What `!` negates in `!=`, `>` and `>=`, and `e in f` of `e is T in f`.
    Inner,
}

/// A core node, as a node of its written form.
#[derive(Clone, Copy)]
pub(crate) struct Form<'a> {
    pub(crate) tree: &'a ExprTree,
    pub(crate) part: FormNode,
    /// The tokens from the form's first one on.
    pub(crate) tokens: &'a [Token],
}

/// Returns the first `count` items, or all of them if there are fewer.
#[tactic(auto, using(std::proofs::lemmas::List::take_all))]
pub(crate) fn front<T>(items: &[T], count: usize) -> &[T]
    ensures { result.now ≡ take count items.now }
{
    if count < items.len() {
        &items[..count]
    } else {
        items
    }
}

/// Returns the item at an index. It is a function of its own so that its clause is proved once.
pub(crate) fn item_at<T>(items: &[T], index: usize) -> Option<&T>
    ensures { option_map (λ item. item.now) result ≡ slice_get items.now index }
{
    items.get(index)
}

/// Returns the node of a whole expression, which `tokens` begin with.
pub(crate) fn whole<'a>(tree: &'a ExprTree, tokens: &'a [Token]) -> Form<'a>
    ensures { spec.form_of result ≡ spec.whole tree.entry.now tokens.entry.now }
{
    Form {
        tree,
        part: FormNode::Whole,
        tokens,
    }
}

/// Returns a form without the parentheses around it.
pub(crate) fn unwrapped<'a>(form: &Form<'a>) -> Form<'a>
    ensures { spec.form_of result ≡ spec.unwrapped (spec.form_of form.now) }
{
    let mut tree = form.tree;
    let mut tokens = form.tokens;
    while let ExprTree::Parentheses(inner) = tree {
        tree = inner;
        tokens = skip(tokens, 1);
    }
    Form {
        tree,
        part: form.part,
        tokens,
    }
}

/// Returns how many of all further pieces of a chain belong to one of its nodes.
fn kept(part: FormNode, all: usize) -> usize
    ensures { result ≡ spec.kept part all }
{
    match part {
        FormNode::First(count) => count,
        _ => all,
    }
}

/// Returns the further pieces of a chain that belong to one of its nodes.
fn pieces<T>(items: &Items<T>, part: FormNode) -> &[T]
    ensures { result.now ≡ take (spec.kept part (length items.now)) items.now }
{
    front(items.as_slice(), kept(part, items.len()))
}

/// Returns the left operand of a node of a chain; `before` further pieces are in this operand.
fn left_operand<'a>(form: &Form<'a>, first: &'a Boxed<ExprTree>, before: usize) -> Form<'a>
    ensures { spec.form_of result ≡ spec.left_at (spec.form_of form.now) first.entry.now before }
{
    if before == 0 {
        whole(first, form.tokens)
    } else {
        Form {
            tree: form.tree,
            part: FormNode::First(before),
            tokens: form.tokens,
        }
    }
}

/// Returns an operand of a chain.
fn chain_operand<'a>(
    form: &Form<'a>,
    first: &'a Boxed<ExprTree>,
    more: &'a Items<ExprTree>,
    index: usize,
) -> Option<Form<'a>>
    ensures { option_map spec.form_of result
        ≡ spec.chain_at (spec.form_of form.now) first.entry.now
        (spec.piece_at first.entry.now more.entry.now form.now.tokens.now)
        (spec.kept form.now.part (length more.entry.now)) index }
{
    let before: usize = kept(form.part, more.len()).saturating_sub(1);
    if index == 0 {
        return Some(left_operand(form, first, before));
    }
    if index == 1 {
        return row_operand(more, tokens_after_piece(first, form.tokens), before);
    }
    None
}

/// Returns an operand of a sum.
fn sum_operand<'a>(
    form: &Form<'a>,
    first: &'a Boxed<ExprTree>,
    terms: &'a Items<Term<ExprTree>>,
    index: usize,
) -> Option<Form<'a>>
    ensures { option_map spec.form_of result
        ≡ spec.chain_at (spec.form_of form.now) first.entry.now
        (spec.term_at first.entry.now terms.entry.now form.now.tokens.now)
        (spec.kept form.now.part (length terms.entry.now)) index }
{
    let before: usize = kept(form.part, terms.len()).saturating_sub(1);
    if index == 0 {
        return Some(left_operand(form, first, before));
    }
    if index == 1 {
        let terms = terms.as_slice();
        return match item_at(terms, before) {
            Some(term) => {
                let behind = tokens_after_operand(first, form.tokens);
                let behind = tokens_after_terms(front(terms, before), behind);
                Some(whole(&term.operand, skip(behind, 1)))
            }
            None => None,
        };
    }
    None
}

/// Returns an item of a list, whose opening bracket precedes `tokens`.
fn row_operand<'a>(
    items: &'a Items<ExprTree>,
    tokens: &'a [Token],
    index: usize,
) -> Option<Form<'a>>
    ensures { option_map spec.form_of result ≡ spec.row_at items.entry.now tokens.entry.now index }
{
    let items = items.as_slice();
    match item_at(items, index) {
        Some(item) => Some(whole(item, tokens_after_each(front(items, index), tokens))),
        None => None,
    }
}

/// Returns the value of an entry of a record, whose opening brace precedes `tokens`.
fn entry_operand<'a>(
    entries: &'a Items<RecordEntry<ExprTree>>,
    tokens: &'a [Token],
    index: usize,
) -> Option<Form<'a>>
    ensures { option_map spec.form_of result ≡ spec.entry_at entries.entry.now tokens.entry.now index }
{
    let entries = entries.as_slice();
    match item_at(entries, index) {
        Some(entry) => {
            let before = tokens_after_entries(front(entries, index), tokens);
            Some(whole(&entry.value, skip(before, 2)))
        }
        None => None,
    }
}

/// Returns an operand of a node of a chain of accesses: the expression before the node's last access, or an argument of
/// that access.
fn member_operand<'a>(
    form: &Form<'a>,
    first: &'a Boxed<ExprTree>,
    accesses: &'a Items<Access<Items<ExprTree>>>,
    index: usize,
) -> Option<Form<'a>>
    ensures { option_map spec.form_of result
        ≡ spec.member_at (spec.form_of form.now) first.entry.now accesses.entry.now
        (spec.kept form.now.part (length accesses.entry.now)) index }
{
    let before: usize = kept(form.part, accesses.len()).saturating_sub(1);
    if index == 0 {
        return Some(left_operand(form, first, before));
    }
    let accesses = accesses.as_slice();
    match item_at(accesses, before) {
        Some(access) => match access {
            Access::Field(_) => None,
            Access::Method(_, arguments) => {
                let behind = tokens_after_operand(first, form.tokens);
                let behind = tokens_after_accesses(front(accesses, before), behind);
                row_operand(arguments, skip(behind, 3), index - 1)
            }
        },
        None => None,
    }
}

/// Returns the only operand if the index is 0.
fn one_operand<'a>(tree: &'a Boxed<ExprTree>, tokens: &'a [Token], index: usize) -> Option<Form<'a>>
    ensures { option_map spec.form_of result ≡ spec.only_operand_at tree.entry.now tokens.entry.now index }
{
    if index == 0 {
        return Some(whole(tree, tokens));
    }
    None
}

/// Returns the operand of a minus; `None` if the minus is part of a number.
fn negated_operand<'a>(
    tree: &'a Boxed<ExprTree>,
    tokens: &'a [Token],
    index: usize,
) -> Option<Form<'a>>
    ensures { option_map spec.form_of result
        ≡ spec.minus_operand (out-ExprTree tree.entry.now) tree.entry.now tokens.entry.now index }
{
    match &**tree {
        ExprTree::Number(_) => None,
        _ => one_operand(tree, tokens, index),
    }
}

/// Returns the operand at an index of two operands.
fn two_operands<'a>(first: Form<'a>, second: Form<'a>, index: usize) -> Option<Form<'a>>
    ensures { option_map spec.form_of result
        ≡ spec.operand_of_two (spec.form_of first.entry) (spec.form_of second.entry) index }
{
    if index == 0 {
        return Some(first);
    }
    if index == 1 {
        return Some(second);
    }
    None
}

/// Returns whether a node of a comparison's form is the negation of another comparison, as the node of `>` is the
/// negation of `<=`.
fn is_negation(part: FormNode, operator: Comparison) -> bool
    ensures { result ≡ spec.both (spec.is_outer part) (spec.is_negated operator) }
{
    match part {
        FormNode::Inner => false,
        _ => match operator {
            Comparison::Greater | Comparison::GreaterOrEqual | Comparison::NotEqual => true,
            Comparison::Less | Comparison::LessOrEqual | Comparison::Equal | Comparison::In =>
                false,
        },
    }
}

/// Returns an operand of a comparison, or of its negation if `negated`.
fn compared_operand<'a>(
    form: &Form<'a>,
    negated: bool,
    left: &'a Boxed<ExprTree>,
    right: &'a Boxed<ExprTree>,
    index: usize,
) -> Option<Form<'a>>
    ensures { option_map spec.form_of result
        ≡ spec.compared_at negated (spec.form_of form.now) left.entry.now right.entry.now index }
{
    if !negated {
        let behind = tokens_after_piece(left, form.tokens);
        return two_operands(whole(left, form.tokens), whole(right, behind), index);
    }
    if index == 0 {
        return Some(Form {
            part: FormNode::Inner,
            ..*form
        });
    }
    None
}

/// Returns the tokens after `operand is path`.
fn tokens_after_test<'a>(
    operand: &Boxed<ExprTree>,
    path: &PathTree,
    tokens: &'a [Token],
) -> &'a [Token]
    ensures { result.now ≡ drop (path_count path.now) (drop 1 (drop (tree_count operand.now) tokens.entry.now)) }
{
    tokens_after_path(path, tokens_after_piece(operand, tokens))
}

/// Returns an operand of a node of `operand is path in ancestor`.
fn test_operand<'a>(
    form: &Form<'a>,
    operand: &'a Boxed<ExprTree>,
    path: &PathTree,
    ancestor: &'a Boxed<ExprTree>,
    index: usize,
) -> Option<Form<'a>>
    ensures { option_map spec.form_of result
        ≡ spec.in_test_at form.now.part (spec.form_of form.now) operand.entry.now path.now ancestor.entry.now index }
{
    match form.part {
        FormNode::Whole => {
            let test = Form {
                part: FormNode::Test,
                ..*form
            };
            let inner = Form {
                part: FormNode::Inner,
                ..*form
            };
            two_operands(test, inner, index)
        }
        FormNode::First(_) => None,
        FormNode::Test => one_operand(operand, form.tokens, index),
        FormNode::Inner => {
            let behind = skip(tokens_after_test(operand, path, form.tokens), 1);
            two_operands(whole(operand, form.tokens), whole(ancestor, behind), index)
        }
    }
}

/// Returns an operand of `if`.
fn if_operand<'a>(
    test: &'a Boxed<ExprTree>,
    consequent: &'a Boxed<ExprTree>,
    alternative: &'a Boxed<ExprTree>,
    tokens: &'a [Token],
    index: usize,
) -> Option<Form<'a>>
    ensures { let first = drop 1 tokens.entry.now in
        let second = drop 1 (drop (tree_count test.entry.now) first) in
        option_map spec.form_of result
        ≡ spec.operand_of_three (spec.whole test.entry.now first) (spec.whole consequent.entry.now second)
        (spec.whole alternative.entry.now (drop 1 (drop (tree_count consequent.entry.now) second))) index }
{
    let first = skip(tokens, 1);
    if index == 0 {
        return Some(whole(test, first));
    }
    let second = tokens_after_piece(test, first);
    if index == 1 {
        return Some(whole(consequent, second));
    }
    if index == 2 {
        return Some(whole(alternative, tokens_after_piece(consequent, second)));
    }
    None
}

/// Returns the form of an operand of a form's core node, if it has this operand.
fn operand<'a>(form: &Form<'a>, index: usize) -> Option<Form<'a>>
    ensures { option_map spec.form_of result ≡ spec.operand (spec.form_of form.now) index }
{
    let tree = form.tree;
    let tokens = form.tokens;
    match tree {
        ExprTree::Call(path, arguments) => {
            let row = skip(tokens_after_path(path, tokens), 1);
            row_operand(arguments, row, index)
        }
        ExprTree::Set(members) => row_operand(members, skip(tokens, 1), index),
        ExprTree::Record(entries) => entry_operand(entries, skip(tokens, 1), index),
        ExprTree::Member(first, accesses) => member_operand(form, first, accesses, index),
        ExprTree::Not(inner) => one_operand(inner, skip(tokens, 1), index),
        ExprTree::Minus(inner) => negated_operand(inner, skip(tokens, 1), index),
        ExprTree::Product(first, more) | ExprTree::And(first, more) | ExprTree::Or(first, more) => {
            chain_operand(form, first, more, index)
        }
        ExprTree::Sum(first, terms) => sum_operand(form, first, terms, index),
        ExprTree::Compare(left, operator, right) => {
            let negated = is_negation(form.part, *operator);
            compared_operand(form, negated, left, right, index)
        }
        ExprTree::Has(inner, _) | ExprTree::Like(inner, _) | ExprTree::Is(inner, _) => {
            one_operand(inner, tokens, index)
        }
        ExprTree::IsIn(inner, path, outer) => test_operand(form, inner, path, outer, index),
        ExprTree::If(test, consequent, alternative) => {
            if_operand(test, consequent, alternative, tokens, index)
        }
        _ => None,
    }
}

/// Returns the form of the core node at a path of an expression, which `tokens` begin with; `None` if the core
/// expression has no such node.
pub(crate) fn node_at<'a>(
    tree: &'a ExprTree,
    tokens: &'a [Token],
    path: &[usize],
) -> Option<Form<'a>>
    ensures { option_map spec.form_of result
        ≡ spec.node_at (spec.unwrapped (spec.whole tree.entry.now tokens.entry.now)) path.now }
{
    let mut here = unwrapped(&whole(tree, tokens));
    for index in path {
        match operand(&here, *index) {
            Some(below) => here = unwrapped(&below),
            None => return None,
        }
    }
    Some(here)
}

/// Returns the tokens after a form.
fn tokens_after_form<'a>(form: &Form<'a>) -> &'a [Token]
    ensures { result.now ≡ spec.tokens_after_step (out-ExprTree form.now.tree.now) (spec.form_of form.now) }
{
    let tree = form.tree;
    match tree {
        ExprTree::Member(first, accesses) => {
            let pieces = pieces(accesses, form.part);
            tokens_after_accesses(pieces, tokens_after_operand(first, form.tokens))
        }
        ExprTree::Product(first, more) | ExprTree::And(first, more) | ExprTree::Or(first, more) => {
            let pieces = pieces(more, form.part);
            tokens_after_each(pieces, tokens_after_operand(first, form.tokens))
        }
        ExprTree::Sum(first, terms) => {
            let pieces = pieces(terms, form.part);
            tokens_after_terms(pieces, tokens_after_operand(first, form.tokens))
        }
        ExprTree::IsIn(inner, path, _) => match form.part {
            FormNode::Test => tokens_after_test(inner, path, form.tokens),
            _ => tokens_after_tree(tree, form.tokens),
        },
        _ => tokens_after_tree(tree, form.tokens),
    }
}

/// Returns the tokens before `rest`, with which `tokens` end.
pub(crate) fn up_to<'a>(tokens: &'a [Token], rest: &[Token]) -> &'a [Token]
    ensures { result.now ≡ spec.up_to tokens.entry.now rest.now }
{
    front(tokens, tokens.len().saturating_sub(rest.len()))
}

/// Returns the tokens of the form of the core node at a path of an expression, which `tokens` begin with; `None` if the
/// core expression has no such node.
pub(crate) fn tokens_at<'a>(
    tree: &'a ExprTree,
    tokens: &'a [Token],
    path: &[usize],
) -> Option<&'a [Token]>
    ensures { option_map (λ ts. ts.now) result ≡ spec.tokens_at tree.entry.now tokens.entry.now path.now }
{
    match node_at(tree, tokens, path) {
        Some(form) => Some(up_to(form.tokens, tokens_after_form(&form))),
        None => None,
    }
}
