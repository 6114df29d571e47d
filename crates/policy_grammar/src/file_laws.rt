//! A theorem about the policies of a file. The function is a no-op.
ghost use Rattle.policy_grammar.specs.SameReadings.{EachIsParsedAsInItsFile};

use grammar_parsing::{lexing_is_unique, reading_is_unique};

/// Proves that the text of each policy of a file, parsed by itself, gives the same policy as in the file, or an error.
/// No-op.
pub fn texts_read_as_in_their_file()
    ensures { EachIsParsedAsInItsFile }
{
    lexing_is_unique();
    reading_is_unique();
}
