//! Cuts the text of a file into the texts of its policies.
ghost use Rattle.std.specs.Prelude.{◌≡◌, IfOk, IfErr, map};
ghost use Rattle.std.specs.List.{AllByRecursion};
ghost use Rattle.grammar_desugaring.specs.grammar_syntax.Lexing.{IsLexed, IsSpelledIn, AreInOrder, IsFault};
ghost use Rattle.policy_grammar.specs.Cuts.{is_end, policy_texts, AreTextsOf};

use grammar_desugaring::{LexFault, Token, TokenKind, tokens};
use plain::NoMemory;
use std::alloc::Global;

/// Returns whether a token of this kind ends a policy.
fn is_end(kind: TokenKind) -> bool
    ensures { result ≡ is_end kind }
{
    matches!(kind, TokenKind::Semicolon)
}

/// Returns the parts of `text` that end with a `;` of `tokens`, each without leading whitespace. `tokens` are the
/// tokens of `text`.
fn cut<'t>(alloc: Global, text: &'t str, tokens: &[Token]) -> Result<Vec<&'t str>, NoMemory>
    requires spelled { AllByRecursion (IsSpelledIn text.now) tokens.now }
    requires ordered { AreInOrder 0 tokens.now }
    ensures { IfOk result (λ texts. map (λ t. t.now) texts.items ≡ policy_texts text.now tokens.now) }
{
    let mut texts = Vec::new(alloc);
    let mut from = 0;
    for token in tokens {
        if !is_end(token.kind) {
            continue;
        }
        texts.push(text[from..token.end].trim_start())?;
        from = token.end;
    }
    Ok(texts)
}

/// Returns the text of each policy of a file, in order, as slices of the file.
///
/// A policy's text begins at the first non-whitespace character after the previous policy, so comments before a policy
/// belong to its text. A policy's text ends with its `;`. What follows the last `;` belongs to no policy. `text` is cut
/// by its tokens alone, and need not be a file of policies.
///
/// O(length of `text`). Allocates the tokens and the list of texts.
///
/// # Errors
///
/// - `BadToken` (10): no whitespace, comment or token starts at the reported byte, counted from 0.
/// - `NoMemory` (1): an allocation failed; possible at any point.
pub fn policy_texts<'t>(alloc: Global, text: &'t str) -> Result<Vec<&'t str>, LexFault>
    ensures cut { IfOk result (λ texts. AreTextsOf text.now (map (λ t. t.now) texts.items)) }
    ensures fault { IfErr result (λ fault. IsFault fault text.now) }
{
    let tokens = tokens(alloc, text)?;
    Ok(cut(alloc, text, &tokens)?)
}
