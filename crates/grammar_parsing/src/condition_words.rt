//! The meanings of `when` and `unless`, which the kind of the token determines.

ghost use Rattle.grammar_parsing.specs.Grammar.{condition_word_of};

use crate::symbols::Symbol;
use crate::tree::ConditionWord;
use grammar_syntax::TokenKind;

impl Symbol for ConditionWord {
    ghost meaning = { condition_word_of };

    fn of(kind: TokenKind) -> Option<ConditionWord> {
        match kind {
            TokenKind::When => Some(ConditionWord::When),
            TokenKind::Unless => Some(ConditionWord::Unless),
            _ => None,
        }
    }
}
