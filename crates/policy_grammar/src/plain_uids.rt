//! Uids in their usual form: `User::"alice"` with nothing between its tokens and no escape. They are parsed directly,
//! without tokens and without a tree.
ghost use Rattle.std.specs.Prelude.{IfOk, IfSome};
ghost use Rattle.policy_grammar.specs.PolicyText.{IsUidText};
ghost use Rattle.policy_grammar.specs.inner.Parts.{IsWrittenPlainly};

use crate::trees::MOST_POLICY_BYTES;
use grammar_desugaring::strings_are_read;
use plain::NoMemory;
use std::alloc::Global;
use values::{EntityUid, SharedText, TypeName};

/// Returns the part before `::"` and the part between the quotes, if the second quote ends the text and no escape is
/// between the quotes.
fn plain_parts(text: &str) -> Option<(&str, &str)>
    ensures { IfSome result (λ parts. IsWrittenPlainly text.now parts.0.now parts.1.now) }
{
    let (front, behind) = text.split_once('"')?;
    let name = front.strip_suffix(':')?.strip_suffix(':')?;
    let (id, rest) = behind.split_once('"')?;
    if !rest.is_empty() || id.contains('\\') {
        return None;
    }
    Some((name, id))
}

/// Returns the uid of a text in the usual form; `None` for other texts, and for a text of over 262,144 bytes. The only
/// error is `NoMemory`.
pub(crate) fn plain_uid(alloc: Global, text: &str) -> Result<Option<EntityUid>, NoMemory>
    ensures { IfOk result (λ found. IfSome found (IsUidText text.now)) }
{
    strings_are_read();
    if text.len() > MOST_POLICY_BYTES {
        return Ok(None);
    }
    let Some((name, id)) = plain_parts(text) else {
        return Ok(None);
    };
    let Some(type_name) = TypeName::parse(alloc, name)? else {
        return Ok(None);
    };
    let id = SharedText::from_str(alloc, id)?;
    Ok(Some(EntityUid { type_name, id }))
}
