//! Theorems about the grammar of policies. The functions are no-ops.
ghost use Rattle.std.specs.List.{AllByRecursion};
ghost use Rattle.grammar_parsing.specs.Grammar.{policy, policies, uid};
ghost use Rattle.grammar_parsing.specs.WellFormed.{IsMadeOfTokens, WellFormedPolicy, WellFormedUid};
ghost use Rattle.grammar_parsing.specs.Expressions.{nesting_limit};
ghost use Rattle.grammar_syntax.specs.Lang.{at_any};
ghost use Rattle.grammar_syntax.specs.ParseResults.{HasOneTree, HasOneAnswer, HasOneAnswerWithin};
ghost use Rattle.grammar_syntax.specs.ParseResults.{OpensNextLevel};

/// Proves that each list of tokens has exactly one result, a tree or an error, as a policy, as a list of policies and
/// as a uid. Proves also that a token rejected as `TooDeep` opens the first level past the limit. No-op.
pub fn reading_is_unique()
    ensures one_policy { HasOneTree (policy nesting_limit) }
    ensures one_list { HasOneTree (policies nesting_limit) }
    ensures one_uid { HasOneTree uid }
    ensures policy_answer { HasOneAnswerWithin (policy nesting_limit) (at_any policy) }
    ensures list_answer { HasOneAnswerWithin (policies nesting_limit) (at_any policies) }
    ensures uid_answer { HasOneAnswer uid }
    ensures policy_too_deep { OpensNextLevel policy nesting_limit }
    ensures list_too_deep { OpensNextLevel policies nesting_limit }
{}

/// Proves that a tree is made of tokens of the list that derives it, each of a kind that its position allows. No-op.
pub fn trees_are_made_of_tokens()
    ensures policy { IsMadeOfTokens (policy nesting_limit) WellFormedPolicy }
    ensures list { IsMadeOfTokens (policies nesting_limit) (λ ts. AllByRecursion (WellFormedPolicy ts)) }
    ensures uid { IsMadeOfTokens uid WellFormedUid }
{}
