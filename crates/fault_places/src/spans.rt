//! Spans of a text, in bytes.
ghost use Rattle.std.specs.Prelude.{◌≡◌, if◌then◌else◌, IfOk, option_map, option_and_then};
ghost use Rattle.grammar_syntax.specs.Lexing.{IsLexed};
ghost use Rattle.fault_places.specs.Spans as spec;
ghost use Rattle.fault_places.specs.Names as names;
ghost use Rattle.fault_places.specs.Places as places;

use crate::policies::{named_at, written_at};
use grammar_parsing::PolicyTree;
use grammar_syntax::{LexFault, Token, tokens};
use plain::NoMemory;
use policy_grammar::{ReadFault, drop_tree, policy_tree};
use std::alloc::Global;

/// A span of a text, in bytes.
#[derive(Clone, Copy)]
pub struct Span {
    /// The offset of the first byte, counted from 0.
    pub start: usize,
    /// The offset after that of the last byte.
    pub end: usize,
}

/// Returns the span from the first of the tokens `written` to the last; `None` if `written` is empty.
fn covering(written: Option<&[Token]>) -> Option<Span>
    ensures { result ≡ option_and_then spec.covering (option_map (λ ts. ts.now) written.entry) }
{
    let tokens = written?;
    let from = tokens.first()?;
    let to = tokens.last()?;
    Some(Span {
        start: from.start,
        end: to.end,
    })
}

/// Returns the tokens of the name that the core node at a path has itself if `is_name`, else those of its written form.
fn chosen<'t>(
    tokens: &'t [Token],
    tree: &'t PolicyTree,
    path: &[usize],
    is_name: bool,
) -> Option<&'t [Token]>
    ensures { option_map (λ ts. ts.now) result
        ≡ (if is_name then names.named_at tokens.entry.now tree.entry.now path.now
        else places.written_at tokens.entry.now tree.entry.now path.now) }
{
    if is_name {
        named_at(tokens, tree, path)
    } else {
        written_at(tokens, tree, path)
    }
}

/// Returns the span of a core node's own name if `is_name`, else of its written form, from all tokens of the text.
fn span_in(
    alloc: Global,
    text: &str,
    tokens: &[Token],
    path: &[usize],
    is_name: bool,
) -> Result<Option<Span>, NoMemory>
    requires { IsLexed text.now tokens.now }
    ensures { IfOk result (spec.IsSpanBy
        (λ ts tree. if is_name then names.named_at ts tree path.now else places.written_at ts tree path.now) text.now) }
{
    match policy_tree(alloc, text) {
        Ok(tree) => {
            let span = covering(chosen(tokens, &tree, path, is_name));
            drop_tree(tree);
            Ok(span)
        }
        Err(fault) => match fault {
            ReadFault::NoMemory => Err(NoMemory),
            _ => Ok(None),
        },
    }
}

/// Returns the span of a core node's own name if `is_name`, else of its written form.
fn span_by(
    alloc: Global,
    text: &str,
    path: &[usize],
    is_name: bool,
) -> Result<Option<Span>, NoMemory>
    ensures { IfOk result (spec.IsSpanBy
        (λ ts tree. if is_name then names.named_at ts tree path.now else places.written_at ts tree path.now) text.now) }
{
    match tokens(alloc, text) {
        Ok(found) => span_in(alloc, text, &found, path, is_name),
        Err(fault) => match fault {
            LexFault::NoMemory => Err(NoMemory),
            LexFault::BadToken(_) => Ok(None),
        },
    }
}

/// Returns the span of the source text of the core node at a path of a policy's whole expression; `None` if `text` is
/// not a policy, or its expression has no such node.
///
/// `path` has the indexes of the operands that lead to the node from the root
/// `principal && (action && (resource && conditions))`. Operands are numbered from 0 in the order in which they are
/// written. A path to or into a part of the scope gives the span of that part. A path to a conjunction of parts or
/// conditions gives the span of the policy without its annotations. Parentheses around an expression do not belong to
/// its span. If rewriting made the node, as `<=` of `a > b`, the span is that of the least expression around it.
///
/// O(length of `text` and `path`).
///
/// # Errors
///
/// - `NoMemory` (1): an allocation failed.
pub fn span_of(alloc: Global, text: &str, path: &[usize]) -> Result<Option<Span>, NoMemory>
    ensures { IfOk result (spec.IsSpanOf text.now path.now) }
{
    span_by(alloc, text, path, false)
}

/// Returns the span of the name that the core node at a path of a policy's whole expression has itself: the uid of an
/// entity, or the type after `is`. `None` if `text` is not a policy, or the node has no name.
///
/// `path` is as for [`span_of`], also in the scope: in `principal == User::"a"` the uid is operand 1.
///
/// O(length of `text` and `path`).
///
/// # Errors
///
/// - `NoMemory` (1): an allocation failed.
pub fn name_span(alloc: Global, text: &str, path: &[usize]) -> Result<Option<Span>, NoMemory>
    ensures { IfOk result (spec.IsNameSpanOf text.now path.now) }
{
    span_by(alloc, text, path, true)
}
