//! The tokenizer.
ghost use Rattle.std.specs.Prelude.{IfOk, IfErr};
ghost use Rattle.std.specs.List.{AllByRecursion};
ghost use Rattle.grammar_syntax.specs.Lexing.{IsLexed, IsSpelledIn, AreInOrder, IsFault};

use crate::front::front;
use crate::gaps::gap;
use crate::lex_fault::LexFault;
use crate::token::Token;
use std::alloc::Global;

/// The list of tokens is created with a capacity of one token for this many bytes of the text. Ordinary policies have
/// fewer tokens, so the list does not grow.
const BYTES_A_TOKEN: usize = 3;

/// Returns the tokens of a text in order, without the whitespace and comments between them. Each token is the longest
/// that starts at its offset.
///
/// O(length of the text). Allocates the list of tokens.
///
/// # Errors
///
/// - `BadToken` (10): neither whitespace nor a comment nor a token starts at the reported byte. If a string is not
///   closed, or has a bad escape, the byte is that of its opening quote.
/// - `NoMemory` (1): an allocation failed; possible at any point.
pub fn tokens(alloc: Global, text: &str) -> Result<Vec<Token>, LexFault>
    ensures found { IfOk result (λ tokens. IsLexed text.now tokens.items) }
    ensures spelled { IfOk result (λ tokens. AllByRecursion (IsSpelledIn text.now) tokens.items) }
    ensures ordered { IfOk result (λ tokens. AreInOrder 0 tokens.items) }
    ensures fault { IfErr result (λ fault. IsFault fault text.now) }
{
    let mut tokens = Vec::with_capacity(alloc, text.len() / BYTES_A_TOKEN)?;
    let mut at = 0;
    while at < text.len() {
        let rest = &text[at..];
        if let Some(len) = gap(rest) {
            at += len;
        } else {
            let Some(found) = front(rest) else {
                return Err(LexFault::BadToken(at));
            };
            let end = at + found.len;
            tokens.push(Token {
                kind: found.kind,
                start: at,
                end,
            })?;
            at = end;
        }
    }
    Ok(tokens)
}
