//! A cursor over a list of tokens.

ghost use Rattle.std.specs.Prelude.{◌≡◌, IfErr, length};
ghost use Rattle.grammar_syntax.specs.ParsesTo.{ParsesTo};
ghost use Rattle.grammar_syntax.specs.Kinds as spec;
ghost use Rattle.grammar_syntax.specs.ParserCombinators as reading;
ghost use Rattle.grammar_syntax.specs.ParseResults as reads;
ghost use Rattle.grammar_syntax.specs.declared.fault.StopCause.TheVariants as halt;

use crate::fault::StopCause;
use crate::kind_sets::{KindSet, same_kind};
use crate::token::{Token, TokenKind};

/// A cursor over the remaining tokens.
#[derive(Drop)]
pub struct Cursor<'a> {
    /// The remaining tokens.
    pub rest: &'a [Token],
}

impl<'a> Cursor<'a> {
    /// Returns the number of remaining tokens.
    pub fn left(&self) -> usize
        ensures { result ≡ length self.now.rest.now }
    {
        self.rest.len()
    }

    /// Returns whether a token of this kind comes next.
    pub fn sees(&self, kind: TokenKind) -> bool
        ensures { result ≡ reads.sees (spec.only kind) self.now.rest.now }
    {
        match self.rest {
            [token, ..] => same_kind(token.kind, kind),
            [] => false,
        }
    }

    /// Returns whether a token of a kind in `set` comes next.
    pub fn sees_one_of<S: KindSet>(&self, set: S) -> bool
        ensures { result ≡ reads.sees (S.included set) self.now.rest.now }
    {
        match self.rest {
            [token, ..] => set.includes(token.kind),
            [] => false,
        }
    }

    /// Consumes and returns the next token, if it is of this kind.
    ///
    /// The only error is `Unexpected`; then nothing is consumed.
    #[tactic(auto, unfolding(crate::specs::ParserCombinators::take))]
    pub fn take(&mut self, kind: TokenKind) -> Result<Token, StopCause>
        ensures reads { ParsesTo (reading.token kind self.old.rest.now) result self.new.rest.now }
        ensures only { IfErr result (λ why. why ≡ halt.Unexpected) }
    {
        match self.rest {
            [token, rest @ ..] if same_kind(token.kind, kind) => {
                self.rest = rest;
                Ok(*token)
            }
            _ => Err(StopCause::Unexpected),
        }
    }

    /// Consumes and returns the next token, if its kind is in `set`.
    ///
    /// The only error is `Unexpected`; then nothing is consumed.
    #[tactic(auto, unfolding(crate::specs::ParserCombinators::take))]
    pub fn take_one_of<S: KindSet>(&mut self, set: S) -> Result<Token, StopCause>
        ensures reads { ParsesTo (reading.take (S.included set) self.old.rest.now) result self.new.rest.now }
        ensures only { IfErr result (λ why. why ≡ halt.Unexpected) }
    {
        match self.rest {
            [token, rest @ ..] if set.includes(token.kind) => {
                self.rest = rest;
                Ok(*token)
            }
            _ => Err(StopCause::Unexpected),
        }
    }
}
