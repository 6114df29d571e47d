//! Theorems about the texts of policies. The functions are no-ops.
ghost use Rattle.policy_grammar.specs.Cuts.{PartsJoin, EachIsSpaced, EachIsSelfContained, AreAsManyAsPolicies};
ghost use Rattle.policy_grammar.specs.Cuts.{EachDerivesPolicy};

use grammar_parsing::lexing_is_unique;

/// Proves that a file that has tokens is the concatenation of the texts of its policies, each with the whitespace
/// before it, and of the rest after the last. Each text by itself has tokens, of which exactly the last is a `;`, and
/// this `;` ends the text. No-op.
pub fn texts_are_self_contained()
    ensures join { PartsJoin }
    ensures spaced { EachIsSpaced }
    ensures each { EachIsSelfContained }
{}

/// Proves that a file whose tokens derive policies has one text for each of them, and that the tokens of each text by
/// itself derive a policy. No-op.
pub fn files_are_cut_by_policies()
    ensures as_many { AreAsManyAsPolicies }
    ensures each { EachDerivesPolicy }
{
    lexing_is_unique();
}
