//! The tokens of the names in expressions: uids, and types after `is`.
ghost use Rattle.std.specs.Prelude.{◌≡◌, option_map};
ghost use Rattle.fault_places.specs.Forms as forms;
ghost use Rattle.fault_places.specs.Names as spec;

use crate::behind::tokens_after_piece;
use crate::forms::{Form, FormNode, node_at, up_to};
use crate::leaves::{tokens_after_path, tokens_after_uid};
use grammar_syntax::{ExprTree, PathTree, Token, UidTree};
use plain::Boxed;

/// Returns the tokens of `path`, which `tokens` begin with.
pub(crate) fn path_tokens<'t>(path: &PathTree, tokens: &'t [Token]) -> &'t [Token]
    ensures { result.now ≡ spec.path_tokens path.now tokens.entry.now }
{
    up_to(tokens, tokens_after_path(path, tokens))
}

/// Returns the tokens of `uid`, which `tokens` begin with.
pub(crate) fn uid_tokens<'t>(uid: &UidTree, tokens: &'t [Token]) -> &'t [Token]
    ensures { result.now ≡ spec.uid_tokens uid.now tokens.entry.now }
{
    up_to(tokens, tokens_after_uid(uid, tokens))
}

/// Returns the tokens of the type `path` after `operand is`; `tokens` begin with the operand.
fn tested<'t>(operand: &Boxed<ExprTree>, path: &PathTree, tokens: &'t [Token]) -> &'t [Token]
    ensures { result.now ≡ spec.tested operand.now path.now tokens.entry.now }
{
    path_tokens(path, tokens_after_piece(operand, tokens))
}

/// Returns the tokens of the name that a form's core node itself has, if it has one.
fn own_name<'a>(form: &Form<'a>) -> Option<&'a [Token]>
    ensures { option_map (λ ts. ts.now) result ≡ spec.own_name (forms.form_of form.now) }
{
    match form.tree {
        ExprTree::Uid(uid) => Some(uid_tokens(uid, form.tokens)),
        ExprTree::Is(operand, path) => Some(tested(operand, path, form.tokens)),
        ExprTree::IsIn(operand, path, _) => match form.part {
            FormNode::Test => Some(tested(operand, path, form.tokens)),
            _ => None,
        },
        _ => None,
    }
}

/// Returns the tokens of the name that the core node at a path of an expression itself has, if it has one; `tokens`
/// begin with the expression.
pub(crate) fn name_in<'a>(
    tree: &'a ExprTree,
    tokens: &'a [Token],
    path: &[usize],
) -> Option<&'a [Token]>
    ensures { option_map (λ ts. ts.now) result ≡ spec.name_in tree.entry.now tokens.entry.now path.now }
{
    match node_at(tree, tokens, path) {
        Some(form) => own_name(&form),
        None => None,
    }
}
