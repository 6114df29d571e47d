//! Sharing of strings with known names, such as those of the previous policy.
ghost use Rattle.std.specs.Prelude.{◌≡◌, IsTrue, IfOk, IfSome};
ghost use Rattle.grammar_desugaring.specs.grammar_syntax.Lexing.{IsSpelledIn, spelling_of};
ghost use Rattle.grammar_desugaring.specs.grammar_syntax.Strings.{IsStringOf};
ghost use Rattle.grammar_desugaring.specs.grammar_syntax.declared.token.TokenKind.TheVariants as k;
ghost use Rattle.grammar_parsing.specs.WellFormed.{WellFormedPath};
ghost use Rattle.grammar_desugaring.specs.BuiltFrom.{IsBuiltFrom};
ghost use Rattle.grammar_desugaring.specs.Meaning.{path_name};

use crate::policy::{ActionScope, EntityScope, Scope};
use grammar_desugaring::{Token, decode_string, spelling, type_name};
use grammar_parsing::PathTree;
use plain::NoMemory;
use std::alloc::Global;
use values::{EntityUid, SharedText, TypeName};

/// Returns whether a Path is one word, equal to this name. Returns `false` for a longer Path, which may have whitespace
/// between its words.
fn is_written(text: &str, path: &PathTree, name: &TypeName) -> bool
    requires { IsBuiltFrom text.now (λ tokens. WellFormedPath tokens path.now) }
    ensures { IsTrue result → name.now ≡ path_name text.now path.now }
{
    if path.more.is_empty() {
        return spelling(text, path.first) == name.as_str();
    }
    false
}

/// Returns the type name that a Path denotes, or `NoMemory`. The name shares the string of `known` if the Path is one
/// word, equal to `known`.
pub(crate) fn type_name_like(
    alloc: Global,
    text: &str,
    path: &PathTree,
    known: Option<&TypeName>,
) -> Result<TypeName, NoMemory>
    requires { IsBuiltFrom text.now (λ tokens. WellFormedPath tokens path.now) }
    ensures { IfOk result (λ name. name ≡ path_name text.now path.now) }
{
    match known {
        Some(name) if is_written(text, path, name) => name.copy(),
        _ => type_name(alloc, text, path),
    }
}

/// Returns the text between the quotes of the string at `token`, which is the string's value, or `None` if the string
/// has escapes. Does not allocate.
fn unescaped(text: &str, token: Token) -> Option<&str>
    requires spelled { IsSpelledIn text.now token }
    requires string { token.kind ≡ k.Text }
    ensures { IfSome result (λ value. IsStringOf value.now (spelling_of text.entry.now token)) }
{
    let value = spelling(text, token).strip_prefix('"')?.strip_suffix('"')?;
    if value.as_bytes().contains(&b'\\') {
        return None;
    }
    Some(value)
}

/// Returns the id `text`, or `NoMemory`. The id shares the string of `known` if that equals `text`.
fn text_like(alloc: Global, text: &str, known: Option<&SharedText>) -> Result<SharedText, NoMemory>
    ensures { IfOk result (λ id. id ≡ text.now) }
{
    match known {
        Some(id) if id.as_str() == text => id.copy(),
        _ => SharedText::from_str(alloc, text),
    }
}

/// Returns the id that the string at `token` denotes, or `NoMemory`. The id shares the string of `known` if the ids are
/// equal and the string at `token` has no escapes.
pub(crate) fn id_like(
    alloc: Global,
    text: &str,
    token: Token,
    known: Option<&SharedText>,
) -> Result<SharedText, NoMemory>
    requires spelled { IsSpelledIn text.now token }
    requires string { token.kind ≡ k.Text }
    ensures { IfOk result (λ id. IsStringOf id (spelling_of text.now token)) }
{
    match unescaped(text, token) {
        Some(value) => text_like(alloc, value, known),
        None => SharedText::from_text(alloc, decode_string(alloc, text, token)?),
    }
}

/// Returns the uid in a scope's constraint `==` or `in` on the action. Returns `None` if the constraint is a list of
/// uids, or if there is no constraint or no scope.
pub(crate) fn action_in(scope: Option<&Scope>) -> Option<&EntityUid> {
    match &scope?.action {
        ActionScope::Equal(uid) | ActionScope::In(uid) => Some(uid),
        ActionScope::Any | ActionScope::InList(_) => None,
    }
}

/// Returns the uid that a known part of a scope names, if it names one.
pub(crate) fn uid_in(part: Option<&EntityScope>) -> Option<&EntityUid> {
    match part? {
        EntityScope::Equal(uid) | EntityScope::In(uid) | EntityScope::IsIn(_, uid) => Some(uid),
        EntityScope::Any | EntityScope::Is(_) => None,
    }
}

/// Returns the type that a known part of a scope names, if it names one.
pub(crate) fn type_in(part: Option<&EntityScope>) -> Option<&TypeName> {
    match part? {
        EntityScope::Is(name) | EntityScope::IsIn(name, _) => Some(name),
        EntityScope::Any | EntityScope::Equal(_) | EntityScope::In(_) => None,
    }
}
