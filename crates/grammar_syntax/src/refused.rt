//! The result of parsing a whole list of tokens, from the result of a parser and the cursor that it leaves.
ghost use Rattle.std.specs.Prelude.{◌≡◌, ◌-◌, length};
ghost use Rattle.grammar_syntax.specs.ParseResults.{refusal_of, whole_of};

use crate::cursor::Cursor;
use crate::fault::{StopCause, SyntaxFault};
use crate::kind_sets::NameSet;
use crate::token::Token;

/// Returns the error of `tokens`, where `halt` is the reason why parsing stopped. The error's index is that of the
/// first remaining token, or the number of tokens if none remains.
fn refusal(tokens: &[Token], cursor: &Cursor<'_>, halt: StopCause) -> SyntaxFault
    ensures { result ≡ refusal_of halt (length tokens.now - length cursor.now.rest.now) cursor.now.rest.now }
{
    let place = tokens.len().saturating_sub(cursor.left());
    match halt {
        StopCause::NoMemory => SyntaxFault::NoMemory,
        StopCause::TooDeep => SyntaxFault::TooDeep(place),
        StopCause::Unexpected => {
            if cursor.sees_one_of(NameSet::Slots) {
                SyntaxFault::Slot(place)
            } else {
                SyntaxFault::Unexpected(place)
            }
        }
    }
}

/// Returns the result of parsing all of `tokens`, given the result `read` of a parser and the cursor that it leaves.
///
/// The function is generic: its proof has one step for dropping the value, and not one for each kind of tree.
///
/// # Errors
///
/// - `NoMemory`, `TooDeep`: the error of `read`.
/// - `Slot` if the first remaining token is a slot, else `Unexpected`: the parser stopped there, or tokens remain after
///   the value.
///
/// Each error but `NoMemory` has the index of the first remaining token, or the number of tokens if none remains.
pub fn read_to_end<T: Drop>(
    tokens: &[Token],
    cursor: &Cursor<'_>,
    read: Result<T, StopCause>,
) -> Result<T, SyntaxFault>
    ensures { result ≡ whole_of read (length tokens.now - length cursor.now.rest.now) cursor.now.rest.now }
{
    match read {
        Ok(tree) => match cursor.rest {
            [] => Ok(tree),
            _ => Err(refusal(tokens, cursor, StopCause::Unexpected)),
        },
        Err(halt) => Err(refusal(tokens, cursor, halt)),
    }
}
