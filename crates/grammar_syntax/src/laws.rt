//! Theorems about tokens, words and strings. The functions are no-ops.
ghost use Rattle.grammar_syntax.specs.Lexing.{OneLexing, BadIsNotLexed, OneBadPlace, EachIsLexedOrBad, EachIsSpelled};
ghost use Rattle.grammar_syntax.specs.Idents.{IdentsByKind, ReservedByKind, IdentsAreTokens};
ghost use Rattle.grammar_syntax.specs.Strings.{HasValue, OneValue, HasPattern, OnePattern};

/// Proves that each text has either exactly one list of tokens or exactly one bad byte, and that the text of each token
/// spells a token of its kind. The text up to a bad byte is whitespace, comments and tokens, and none of these starts
/// at the byte. No-op.
pub fn lexing_is_unique()
    ensures one_list { OneLexing }
    ensures not_both { BadIsNotLexed }
    ensures one_place { OneBadPlace }
    ensures some { EachIsLexedOrBad }
    ensures spelled { EachIsSpelled }
{}

/// Proves that the kind of a token determines whether its text is an identifier, and whether it is a reserved word; and
/// that each identifier is the text of a token. No-op.
pub fn kinds_of_words()
    ensures idents { IdentsByKind }
    ensures reserved { ReservedByKind }
    ensures each_ident { IdentsAreTokens }
{}

/// Proves that a string without `\*` has exactly one value, and that each string denotes exactly one pattern. No-op.
pub fn strings_have_one_meaning()
    ensures some_value { HasValue }
    ensures one_value { OneValue }
    ensures some_pattern { HasPattern }
    ensures one_pattern { OnePattern }
{}
