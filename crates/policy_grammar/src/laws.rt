//! Theorems about parsed texts and their errors. The functions are no-ops.
ghost use Rattle.policy_grammar.specs.PolicyText.{IsUidText, IsUidRefused, IsPolicyText, IsPolicyRefused};
ghost use Rattle.policy_grammar.specs.PolicyText.{IsFileRefused};
ghost use Rattle.policy_grammar.specs.Unique.{HasOneReading, IsFileOf, ReportedIsLeast, EachIsNamed, NamesDiffer};

use grammar_desugaring::{least_fault_is_reported, strings_have_one_meaning};
use grammar_parsing::{lexing_is_unique, reading_is_unique, trees_are_made_of_tokens};

/// Proves that each text has exactly one outcome, a value or an error, as a uid, as a policy and as a file. No-op.
pub fn texts_have_one_reading()
    ensures uid { HasOneReading IsUidText IsUidRefused }
    ensures policy { HasOneReading IsPolicyText IsPolicyRefused }
    ensures file { HasOneReading IsFileOf IsFileRefused }
{
    lexing_is_unique();
    strings_have_one_meaning();
    reading_is_unique();
    trees_are_made_of_tokens();
    least_fault_is_reported();
}

/// Proves that the reported error of a list of errors has the offset of one of these errors, and that none of these has
/// a lesser offset. No-op.
pub fn reported_fault_is_least()
    ensures { ReportedIsLeast }
{
    least_fault_is_reported();
}

/// Proves that each policy of a file has a name, and that these names are distinct. No-op.
pub fn file_names_differ()
    ensures each { EachIsNamed }
    ensures differ { NamesDiffer }
{}
