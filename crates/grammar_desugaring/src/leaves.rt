//! Core expressions of a single token, or a uid.
ghost use Rattle.std.specs.Prelude.{◌≡◌, IfOk};
ghost use Rattle.grammar_syntax.specs.declared.token.TokenKind.TheVariants as k;
ghost use Rattle.grammar_syntax.specs.Lexing.{spelling_of};
ghost use Rattle.grammar_core.specs.declared.leaf.Literal.TheVariants as literal;
ghost use Rattle.grammar_core.specs.declared.expr.Expr.TheVariants as core;
ghost use Rattle.grammar_syntax.specs.Kinds.{only};
ghost use Rattle.grammar_desugaring.specs.Strings.{value_of};
ghost use Rattle.grammar_desugaring.specs.Numbers.{positive, negative};
ghost use Rattle.grammar_desugaring.specs.Meaning.{variable_of, uid_of};
ghost use Rattle.grammar_desugaring.specs.Core as spec;
ghost use Rattle.grammar_desugaring.specs.inner.WellFormed.{TokenIn, UidIn};

use crate::numbers;
use crate::words::{path_type, string};
use grammar_core::{Expr, Literal, Variable};
use grammar_syntax::{Token, UidTree, spelling};
use plain::{NoMemory, Text};
use std::alloc::Global;
use values::{EntityUid, SharedText};

/// Returns the variable of a keyword.
pub(crate) fn variable(word: grammar_syntax::RequestKeyword) -> Expr
    ensures { result ≡ core.Variable (variable_of word) }
{
    match word {
        grammar_syntax::RequestKeyword::Principal => Expr::Variable(Variable::Principal),
        grammar_syntax::RequestKeyword::Action => Expr::Variable(Variable::Action),
        grammar_syntax::RequestKeyword::Resource => Expr::Variable(Variable::Resource),
        grammar_syntax::RequestKeyword::Context => Expr::Variable(Variable::Context),
    }
}

/// Returns the literal of the number at `token`, without a minus before it; 0 if the number is out of range.
pub(crate) fn number_literal(text: &str, token: Token) -> Expr
    requires { TokenIn text.now (only k.Number) token }
    ensures { result ≡ spec.long (positive (spelling_of text.now token)) }
{
    Expr::Literal(Literal::Long(numbers::positive(spelling(text, token).as_bytes())))
}

/// Returns the literal of the number at `token` with the minus before it; 0 if the number is out of range.
pub(crate) fn negated_literal(text: &str, token: Token) -> Expr
    requires { TokenIn text.now (only k.Number) token }
    ensures { result ≡ spec.long (negative (spelling_of text.now token)) }
{
    Expr::Literal(Literal::Long(numbers::negative(spelling(text, token).as_bytes())))
}

/// Returns the literal of the string at `token`.
pub(crate) fn text_literal(alloc: Global, text: &str, token: Token) -> Result<Expr, NoMemory>
    requires { TokenIn text.now (only k.Text) token }
    ensures { IfOk result (λ e. e ≡ core.Literal (literal.Text (value_of (spelling_of text.now token)))) }
{
    let value = string(alloc, text, token)?;
    Ok(Expr::Literal(Literal::Text(value)))
}

/// Returns the literal of a uid.
pub(crate) fn uid_literal(alloc: Global, text: &str, tree: &UidTree) -> Result<Expr, NoMemory>
    requires { UidIn text.now tree.now }
    ensures { IfOk result (λ e. e ≡ core.Literal (literal.Entity (uid_of text.now tree.now))) }
{
    let type_name = path_type(alloc, text, &tree.path)?;
    let id = SharedText::from_text(alloc, string(alloc, text, tree.id)?)?;
    Ok(Expr::Literal(Literal::Entity(EntityUid { type_name, id })))
}
