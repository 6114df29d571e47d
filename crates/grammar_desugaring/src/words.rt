//! The meanings of signs, strings, keys and Paths.
ghost use Rattle.std.specs.Prelude.{◌≡◌, ◌∷◌, IfOk, map};
ghost use Rattle.plain.specs.Words.{AreIdents};
ghost use Rattle.grammar_syntax.specs.Lexing.{spelling_of};
ghost use Rattle.grammar_syntax.specs.declared.token.TokenKind.TheVariants as k;
ghost use Rattle.grammar_syntax.specs.Kinds.{only};
ghost use Rattle.grammar_syntax.specs.Grammar.{identifiers};
ghost use Rattle.grammar_syntax.specs.Patterns.{patterns};
ghost use Rattle.grammar_desugaring.specs.inner.WellFormed.{TokenIn, KeyIn, PathIn};
ghost use Rattle.grammar_desugaring.specs.Strings.{value_of, pattern_of};
ghost use Rattle.grammar_desugaring.specs.Meaning.{sign_of, path_name, name_of, place_of};

use grammar_core::{Binary, Pattern};
use grammar_syntax::{KeyTree, PathTree, Sign, Token, decode_pattern, decode_string, spelling};
use plain::{NoMemory, Text};
use std::alloc::Global;
use values::TypeName;

/// Returns the operator of the sign before a further term of a sum.
pub(crate) fn sign(sign: Sign) -> Binary
    ensures { result ≡ sign_of sign }
{
    match sign {
        Sign::Plus => Binary::Add,
        Sign::Minus => Binary::Subtract,
    }
}

/// Returns the value of the string at `token`.
pub(crate) fn string(alloc: Global, text: &str, token: Token) -> Result<Text, NoMemory>
    requires { TokenIn text.now (only k.Text) token }
    ensures { IfOk result (λ value. value ≡ value_of (spelling_of text.now token)) }
{
    decode_string(alloc, text, token)
}

/// Returns the pattern that the string at `token` denotes.
pub(crate) fn pattern(alloc: Global, text: &str, token: Token) -> Result<Pattern, NoMemory>
    requires { TokenIn text.now patterns token }
    ensures { IfOk result (λ pattern. pattern ≡ pattern_of (spelling_of text.now token)) }
{
    let literals = decode_pattern(alloc, text, token)?;
    Ok(Pattern::from_literals(literals))
}

/// Returns the name of a key or a field: a word, or the value of a string.
pub(crate) fn name(alloc: Global, text: &str, key: KeyTree) -> Result<Text, NoMemory>
    requires { KeyIn text.now key }
    ensures { IfOk result (λ name. name ≡ name_of text.now key) }
{
    match key {
        KeyTree::Word(word) => Text::from_str(alloc, spelling(text, word)),
        KeyTree::Quoted(quoted) => string(alloc, text, quoted),
    }
}

/// Returns the byte offset of a key.
pub(crate) fn place(key: KeyTree) -> usize
    ensures { result ≡ place_of key }
{
    match key {
        KeyTree::Word(word) => word.start,
        KeyTree::Quoted(quoted) => quoted.start,
    }
}

/// Returns the words of a Path.
fn words_of<'a>(alloc: Global, text: &'a str, path: &PathTree) -> Result<Vec<&'a str>, NoMemory>
    requires { PathIn text.now path.now }
    ensures words { IfOk result
        (λ words. map (λ w. w.now) words.items
        ≡ spelling_of text.entry.now path.now.first ∷ map (spelling_of text.entry.now) path.now.more) }
    ensures idents { IfOk result (λ words. AreIdents (map (λ w. w.now) words.items)) }
{
    let mut words = Vec::new(alloc);
    words.push(spelling(text, path.first))?;
    for word in path.more.as_slice() {
        words.push(spelling(text, *word))?;
    }
    Ok(words)
}

/// Returns the type name that a Path of one word, the usual case, denotes. Allocates only for the name.
fn word_type(alloc: Global, text: &str, word: Token) -> Result<TypeName, NoMemory>
    requires { TokenIn text.now identifiers word }
    ensures { IfOk result (λ name. name ≡ spelling_of text.now word) }
{
    TypeName::from_words(alloc, &[spelling(text, word)])
}

/// Returns the type name that a Path of several words denotes.
fn joined_type(alloc: Global, text: &str, path: &PathTree) -> Result<TypeName, NoMemory>
    requires { PathIn text.now path.now }
    ensures { IfOk result (λ name. name ≡ path_name text.now path.now) }
{
    let words = words_of(alloc, text, path)?;
    TypeName::from_words(alloc, &words)
}

/// Returns the type name that a Path denotes.
pub(crate) fn path_type(alloc: Global, text: &str, path: &PathTree) -> Result<TypeName, NoMemory>
    requires { PathIn text.now path.now }
    ensures { IfOk result (λ name. name ≡ path_name text.now path.now) }
{
    match path.more.as_slice() {
        [] => word_type(alloc, text, path.first),
        _ => joined_type(alloc, text, path),
    }
}
