//! Parsers of paths and uids.

ghost use Rattle.std.specs.Prelude.{◌≡◌, IfErr};
ghost use Rattle.grammar_syntax.specs.ParsesTo.{ParsesTo};
ghost use Rattle.grammar_syntax.specs.Grammar as grammar;
ghost use Rattle.grammar_syntax.specs.Parsing as spec;
ghost use Rattle.grammar_syntax.specs.ParseResults.{ReadsFront};
ghost use Rattle.grammar_syntax.specs.declared.fault.StopCause.TheVariants as halt;

use crate::cursor::Cursor;
use crate::fault::StopCause;
use crate::kind_sets::NameSet;
use crate::name_trees::{PathOrUid, PathTree, UidTree};
use crate::repeated::read_many;
use crate::token::{Token, TokenKind};
use plain::Items;
use std::alloc::Global;

/// Parses "::" and an Ident.
#[tactic(auto, unfolding(crate::specs::Parsing::path_word))]
fn path_word(tokens: &mut Cursor<'_>) -> Result<Token, StopCause>
    ensures reads { ParsesTo (spec.path_word tokens.old.rest.now) result tokens.new.rest.now }
    ensures only { IfErr result (λ why. why ≡ halt.Unexpected) }
{
    tokens.take(TokenKind::Colons)?;
    tokens.take_one_of(NameSet::Identifiers)
}

/// Parses the rest of a Path after its first word, `first`.
#[tactic(auto, unfolding(crate::specs::Parsing::rest_of_path))]
fn rest_of_path(alloc: Global, tokens: &mut Cursor<'_>, first: Token) -> Result<PathTree, StopCause>
    ensures { ParsesTo (spec.rest_of_path first tokens.old.rest.now) result tokens.new.rest.now }
{
    let more = read_many(alloc, tokens, TokenKind::Colons, path_word)?;
    Ok(PathTree { first, more })
}

/// Parses a Path = Ident { "::" Ident } from the front of the tokens. Parsing is greedy: it goes on as long as the next
/// token can continue the Path. The cursor is then after the Path. After `Unexpected` it is before the token at which
/// parsing stops; after `NoMemory` its position is unspecified.
///
/// # Errors
///
/// - `Unexpected`: the next token cannot occur there, or the tokens end too early.
/// - `NoMemory`: an allocation failed; possible at any point.
#[tactic(auto, unfolding(crate::specs::Parsing::path))]
pub fn path(alloc: Global, tokens: &mut Cursor<'_>) -> Result<PathTree, StopCause>
    ensures reads { ReadsFront grammar.path tokens.old.rest.now result tokens.new.rest.now }
    ensures steps { ParsesTo (spec.path tokens.old.rest.now) result tokens.new.rest.now }
{
    let first = tokens.take_one_of(NameSet::Identifiers)?;
    rest_of_path(alloc, tokens, first)
}

/// Parses "::" and a piece: an Ident or a String.
#[tactic(auto, unfolding(crate::specs::Parsing::piece))]
fn piece(tokens: &mut Cursor<'_>) -> Result<Token, StopCause>
    ensures reads { ParsesTo (spec.piece tokens.old.rest.now) result tokens.new.rest.now }
    ensures only { IfErr result (λ why. why ≡ halt.Unexpected) }
{
    tokens.take(TokenKind::Colons)?;
    tokens.take_one_of(NameSet::Pieces)
}

/// Parses the rest of a Uid after its first word, `first`.
fn rest_of_uid(alloc: Global, tokens: &mut Cursor<'_>, first: Token) -> Result<UidTree, StopCause>
    ensures { ParsesTo (spec.rest_of_uid first tokens.old.rest.now) result tokens.new.rest.now }
{
    let mut more = Items::new(alloc);
    for _turn in 0..tokens.left() {
        let next = piece(tokens)?;
        if next.kind == TokenKind::Text {
            let path = PathTree { first, more };
            return Ok(UidTree { path, id: next });
        }
        more.push(next)?;
    }
    Err(StopCause::Unexpected)
}

/// Parses a Uid = Path "::" String from the front of the tokens. The cursor is then after the Uid. After `Unexpected`
/// it is before the token at which parsing stops; after `NoMemory` its position is unspecified.
///
/// # Errors
///
/// - `Unexpected`: the next token cannot occur there, or the tokens end too early.
/// - `NoMemory`: an allocation failed; possible at any point.
#[tactic(auto, unfolding(crate::specs::Parsing::uid))]
pub fn uid(alloc: Global, tokens: &mut Cursor<'_>) -> Result<UidTree, StopCause>
    ensures reads { ReadsFront grammar.uid tokens.old.rest.now result tokens.new.rest.now }
    ensures steps { ParsesTo (spec.uid tokens.old.rest.now) result tokens.new.rest.now }
{
    let first = tokens.take_one_of(NameSet::Identifiers)?;
    rest_of_uid(alloc, tokens, first)
}

/// Parses the rest of a name after its first word, `first`: a Uid if a String ends the name, else a Path. The cursor is
/// then after the name. After `Unexpected` it is before the token at which parsing stops; after `NoMemory` its position
/// is unspecified.
///
/// # Errors
///
/// - `Unexpected`: the next token cannot occur there, or the tokens end too early.
/// - `NoMemory`: an allocation failed; possible at any point.
pub fn rest_of_name(
    alloc: Global,
    tokens: &mut Cursor<'_>,
    first: Token,
) -> Result<PathOrUid, StopCause>
    ensures { ParsesTo (spec.rest_of_name first tokens.old.rest.now) result tokens.new.rest.now }
{
    let mut more = Items::new(alloc);
    for _turn in 0..tokens.left() {
        if !tokens.sees(TokenKind::Colons) {
            return Ok(PathOrUid::Path(PathTree { first, more }));
        }
        let next = piece(tokens)?;
        if next.kind == TokenKind::Text {
            let path = PathTree { first, more };
            return Ok(PathOrUid::Uid(UidTree { path, id: next }));
        }
        more.push(next)?;
    }
    Ok(PathOrUid::Path(PathTree { first, more }))
}
