//! Parsers of primaries: literals, names, calls, and expressions in brackets.

ghost use Rattle.std.specs.Prelude.{◌≡◌, IfErr};
ghost use Rattle.grammar_parsing.specs.inner.Reading as spec;
ghost use Rattle.grammar_parsing.specs.Expressions.{is_positive};
ghost use Rattle.grammar_syntax.specs.ParsesTo.{ParsesTo};
ghost use Rattle.grammar_parsing.specs.inner.Nests.{Nests};
ghost use Rattle.grammar_syntax.specs.declared.fault.StopCause.TheVariants as halt;

use crate::symbols::{Symbol, take_symbol};
use crate::token_sets::TokenSet;
use grammar_syntax::{
    Access, Cursor, ExprTree, KeyTree, NameSet, PathOrUid, PathTree, RecordEntry, RequestKeyword,
    StopCause, TokenKind, read_more, rest_of_name,
};
use plain::{Boxed, Items, pair_with};
use std::alloc::Global;

/// Parses "true" | "false" | Number | String.
#[tactic(auto, unfolding(crate::specs::inner::Reading::literal))]
fn literal(tokens: &mut Cursor<'_>) -> Result<ExprTree, StopCause>
    ensures reads { ParsesTo (spec.literal tokens.old.rest.now) result tokens.new.rest.now }
    ensures only { IfErr result (λ why. why ≡ halt.Unexpected) }
{
    if tokens.sees_one_of(TokenSet::Booleans) {
        let value = take_symbol::<bool>(tokens)?;
        return Ok(ExprTree::Boolean(value));
    }
    if tokens.sees(TokenKind::Number) {
        let token = tokens.take(TokenKind::Number)?;
        return Ok(ExprTree::Number(token));
    }
    let token = tokens.take(TokenKind::Text)?;
    Ok(ExprTree::Text(token))
}

/// Parses Ident | String.
#[tactic(auto, unfolding(crate::specs::inner::Reading::key))]
pub(crate) fn key(tokens: &mut Cursor<'_>) -> Result<KeyTree, StopCause>
    ensures reads { ParsesTo (spec.key tokens.old.rest.now) result tokens.new.rest.now }
    ensures only { IfErr result (λ why. why ≡ halt.Unexpected) }
{
    if tokens.sees_one_of(NameSet::Identifiers) {
        let word = tokens.take_one_of(NameSet::Identifiers)?;
        return Ok(KeyTree::Word(word));
    }
    let quoted = tokens.take(TokenKind::Text)?;
    Ok(KeyTree::Quoted(quoted))
}

/// Parses "[" String "]".
#[tactic(auto, unfolding(crate::specs::inner::Reading::indexed))]
pub(crate) fn indexed(tokens: &mut Cursor<'_>) -> Result<Access<Items<ExprTree>>, StopCause>
    ensures reads { ParsesTo (spec.indexed tokens.old.rest.now) result tokens.new.rest.now }
    ensures only { IfErr result (λ why. why ≡ halt.Unexpected) }
{
    tokens.take(TokenKind::LBracket)?;
    let name = tokens.take(TokenKind::Text)?;
    tokens.take(TokenKind::RBracket)?;
    Ok(Access::Field(KeyTree::Quoted(name)))
}

/// Returns the variable that a Path names, or `None` if the Path names none: only a Path of one word can name a
/// variable.
fn variable_at(path: &PathTree) -> Option<RequestKeyword>
    ensures { result ≡ spec.variable_at path.now.first path.now.more }
{
    match path.more.as_slice() {
        [] => RequestKeyword::of(path.first.kind),
        _ => None,
    }
}

/// Returns the variable that a Path without arguments names, or the error `Unexpected` if the Path names no variable.
#[tactic(auto, unfolding(crate::specs::inner::Reading::alone))]
fn alone(tokens: &Cursor<'_>, path: PathTree) -> Result<ExprTree, StopCause>
    ensures reads { ParsesTo (spec.alone path tokens.now.rest.now) result tokens.now.rest.now }
    ensures only { IfErr result (λ why. why ≡ halt.Unexpected) }
{
    match variable_at(&path) {
        Some(variable) => Ok(ExprTree::Variable(variable)),
        None => Err(StopCause::Unexpected),
    }
}

/// A parser of expressions that may open `levels` levels of nesting.
///
/// The parser `expr` of the expressions one level deeper is a parameter, so that each production is proved by itself.
#[derive(Drop)]
pub(crate) struct Reader<F> {
    pub(crate) alloc: Global,
    /// The number of levels of nesting that may still be opened.
    pub(crate) levels: usize,
    /// The parser of expressions. Its last argument is the greatest number of levels of the expression.
    pub(crate) expr: F,
}

impl<F: Fn(Global, &mut Cursor<'_>, usize) -> Result<ExprTree, StopCause>> Reader<F> {
    /// Parses an expression of the next level.
    pub(crate) fn inner(&self, tokens: &mut Cursor<'_>) -> Result<ExprTree, StopCause>
        requires { Nests self.now.levels (F.pre self.now.expr) (F.post self.now.expr) }
        ensures { ParsesTo (spec.expr self.now.levels tokens.old.rest.now) result tokens.new.rest.now }
    {
        (self.expr)(self.alloc, tokens, self.levels)
    }

    /// Parses an expression of the next level, into a box.
    pub(crate) fn boxed_inner(&self, tokens: &mut Cursor<'_>) -> Result<Boxed<ExprTree>, StopCause>
        requires { Nests self.now.levels (F.pre self.now.expr) (F.post self.now.expr) }
        ensures { ParsesTo (spec.expr self.now.levels tokens.old.rest.now) result tokens.new.rest.now }
    {
        let x = self.inner(tokens)?;
        Ok(Boxed::new(self.alloc, x)?)
    }

    /// Parses "," Expr.
    #[tactic(auto, unfolding(crate::specs::inner::Reading::next_argument))]
    fn next_argument(&self, tokens: &mut Cursor<'_>) -> Result<ExprTree, StopCause>
        requires { Nests self.now.levels (F.pre self.now.expr) (F.post self.now.expr) }
        ensures { ParsesTo (spec.next_argument (is_positive self.now.levels) (spec.expr self.now.levels)
            tokens.old.rest.now)
            result tokens.new.rest.now }
    {
        tokens.take(TokenKind::Comma)?;
        self.inner(tokens)
    }

    /// Parses { "," Expr }, after the argument `first`.
    fn rest_of_arguments(
        &self,
        tokens: &mut Cursor<'_>,
        first: ExprTree,
    ) -> Result<Items<ExprTree>, StopCause>
        requires { Nests self.now.levels (F.pre self.now.expr) (F.post self.now.expr) }
        ensures { ParsesTo (spec.rest_of_arguments (is_positive self.now.levels) (spec.expr self.now.levels)
            first tokens.old.rest.now)
            result tokens.new.rest.now }
    {
        read_more(self.alloc, tokens, first, TokenKind::Comma, |tokens| {
            self.next_argument(tokens)
        })
    }

    /// Parses [ Expr { "," Expr } ].
    #[tactic(auto, unfolding(crate::specs::inner::Reading::arguments))]
    fn arguments(&self, tokens: &mut Cursor<'_>) -> Result<Items<ExprTree>, StopCause>
        requires { Nests self.now.levels (F.pre self.now.expr) (F.post self.now.expr) }
        ensures { ParsesTo (spec.arguments (is_positive self.now.levels)
            (spec.expr self.now.levels) tokens.old.rest.now)
            result tokens.new.rest.now }
    {
        if !tokens.sees_one_of(TokenSet::ExpressionStarts) {
            return Ok(Items::new(self.alloc));
        }
        let first = self.inner(tokens)?;
        self.rest_of_arguments(tokens, first)
    }

    /// Parses "(" Arguments ")".
    #[tactic(auto, unfolding(crate::specs::inner::Reading::called))]
    pub(crate) fn called(&self, tokens: &mut Cursor<'_>) -> Result<Items<ExprTree>, StopCause>
        requires { Nests self.now.levels (F.pre self.now.expr) (F.post self.now.expr) }
        ensures { ParsesTo (spec.called (is_positive self.now.levels) (spec.expr self.now.levels) tokens.old.rest.now)
            result tokens.new.rest.now }
    {
        tokens.take(TokenKind::LParen)?;
        let found = self.arguments(tokens)?;
        tokens.take(TokenKind::RParen)?;
        Ok(found)
    }

    /// Parses Key ":" Expr.
    #[tactic(auto, unfolding(crate::specs::inner::Reading::entry))]
    fn entry(&self, tokens: &mut Cursor<'_>) -> Result<RecordEntry<ExprTree>, StopCause>
        requires { Nests self.now.levels (F.pre self.now.expr) (F.post self.now.expr) }
        ensures { ParsesTo (spec.entry (is_positive self.now.levels) (spec.expr self.now.levels) tokens.old.rest.now)
            result tokens.new.rest.now }
    {
        let key = key(tokens)?;
        tokens.take(TokenKind::Colon)?;
        let value = self.inner(tokens)?;
        Ok(RecordEntry { key, value })
    }

    /// Parses "," Key ":" Expr.
    #[tactic(auto, unfolding(crate::specs::inner::Reading::next_entry))]
    fn next_entry(&self, tokens: &mut Cursor<'_>) -> Result<RecordEntry<ExprTree>, StopCause>
        requires { Nests self.now.levels (F.pre self.now.expr) (F.post self.now.expr) }
        ensures { ParsesTo (spec.next_entry (is_positive self.now.levels)
            (spec.expr self.now.levels) tokens.old.rest.now)
            result tokens.new.rest.now }
    {
        tokens.take(TokenKind::Comma)?;
        self.entry(tokens)
    }

    /// Parses { "," Key ":" Expr }, after the entry `first`.
    fn rest_of_entries(
        &self,
        tokens: &mut Cursor<'_>,
        first: RecordEntry<ExprTree>,
    ) -> Result<Items<RecordEntry<ExprTree>>, StopCause>
        requires { Nests self.now.levels (F.pre self.now.expr) (F.post self.now.expr) }
        ensures { ParsesTo (spec.rest_of_entries (is_positive self.now.levels) (spec.expr self.now.levels)
            first tokens.old.rest.now)
            result tokens.new.rest.now }
    {
        read_more(self.alloc, tokens, first, TokenKind::Comma, |tokens| {
            self.next_entry(tokens)
        })
    }

    /// Parses [ Key ":" Expr { "," Key ":" Expr } ].
    #[tactic(auto, unfolding(crate::specs::inner::Reading::entries))]
    fn entries(&self, tokens: &mut Cursor<'_>) -> Result<Items<RecordEntry<ExprTree>>, StopCause>
        requires { Nests self.now.levels (F.pre self.now.expr) (F.post self.now.expr) }
        ensures { ParsesTo (spec.entries (is_positive self.now.levels) (spec.expr self.now.levels) tokens.old.rest.now)
            result tokens.new.rest.now }
    {
        if !tokens.sees_one_of(TokenSet::Keys) {
            return Ok(Items::new(self.alloc));
        }
        let first = self.entry(tokens)?;
        self.rest_of_entries(tokens, first)
    }

    /// Parses the arguments of a call of `path` if "(" comes next; else `path` must name a variable. If "(" comes next
    /// and no level of nesting is left, the error is `TooDeep`.
    #[tactic(auto, unfolding(crate::specs::inner::Reading::call_or_variable))]
    fn call_or_variable(
        &self,
        tokens: &mut Cursor<'_>,
        path: PathTree,
    ) -> Result<ExprTree, StopCause>
        requires { Nests self.now.levels (F.pre self.now.expr) (F.post self.now.expr) }
        ensures { ParsesTo (spec.call_or_variable (is_positive self.now.levels) (spec.expr self.now.levels)
            path tokens.old.rest.now)
            result tokens.new.rest.now }
    {
        if !tokens.sees(TokenKind::LParen) {
            return alone(tokens, path);
        }
        if self.levels == 0 {
            return Err(StopCause::TooDeep);
        }
        let (path, found) = pair_with(path, self.called(tokens))?;
        Ok(ExprTree::Call(path, found))
    }

    /// Parses Variable | Uid | Path "(" Arguments ")".
    #[tactic(auto, unfolding(crate::specs::inner::Reading::named, crate::specs::inner::Reading::rest_of_named))]
    fn named(&self, tokens: &mut Cursor<'_>) -> Result<ExprTree, StopCause>
        requires { Nests self.now.levels (F.pre self.now.expr) (F.post self.now.expr) }
        ensures { ParsesTo (spec.named (is_positive self.now.levels) (spec.expr self.now.levels) tokens.old.rest.now)
            result tokens.new.rest.now }
    {
        let first = tokens.take_one_of(NameSet::Identifiers)?;
        match rest_of_name(self.alloc, tokens, first)? {
            PathOrUid::Uid(uid) => Ok(ExprTree::Uid(uid)),
            PathOrUid::Path(path) => self.call_or_variable(tokens, path),
        }
    }

    /// Parses "(" Expr ")".
    #[tactic(auto, unfolding(crate::specs::inner::Reading::parenthesized))]
    fn parenthesized(&self, tokens: &mut Cursor<'_>) -> Result<ExprTree, StopCause>
        requires { Nests self.now.levels (F.pre self.now.expr) (F.post self.now.expr) }
        ensures { ParsesTo (spec.parenthesized (is_positive self.now.levels) (spec.expr self.now.levels)
            tokens.old.rest.now)
            result tokens.new.rest.now }
    {
        tokens.take(TokenKind::LParen)?;
        let x = self.boxed_inner(tokens)?;
        let (x, _closed) = pair_with(x, tokens.take(TokenKind::RParen))?;
        Ok(ExprTree::Parentheses(x))
    }

    /// Parses "[" Arguments "]".
    #[tactic(auto, unfolding(crate::specs::inner::Reading::set))]
    fn set(&self, tokens: &mut Cursor<'_>) -> Result<ExprTree, StopCause>
        requires { Nests self.now.levels (F.pre self.now.expr) (F.post self.now.expr) }
        ensures { ParsesTo (spec.set (is_positive self.now.levels) (spec.expr self.now.levels) tokens.old.rest.now)
            result tokens.new.rest.now }
    {
        tokens.take(TokenKind::LBracket)?;
        let found = self.arguments(tokens)?;
        tokens.take(TokenKind::RBracket)?;
        Ok(ExprTree::Set(found))
    }

    /// Parses "{" [ Key ":" Expr { "," Key ":" Expr } ] "}".
    #[tactic(auto, unfolding(crate::specs::inner::Reading::braced))]
    fn braced(&self, tokens: &mut Cursor<'_>) -> Result<ExprTree, StopCause>
        requires { Nests self.now.levels (F.pre self.now.expr) (F.post self.now.expr) }
        ensures { ParsesTo (spec.braced (is_positive self.now.levels) (spec.expr self.now.levels) tokens.old.rest.now)
            result tokens.new.rest.now }
    {
        tokens.take(TokenKind::LBrace)?;
        let found = self.entries(tokens)?;
        tokens.take(TokenKind::RBrace)?;
        Ok(ExprTree::Record(found))
    }

    /// Parses "(" Expr ")" | "[" Arguments "]" | "{" .. "}".
    #[tactic(auto, unfolding(crate::specs::inner::Reading::nested))]
    fn nested(&self, tokens: &mut Cursor<'_>) -> Result<ExprTree, StopCause>
        requires { Nests self.now.levels (F.pre self.now.expr) (F.post self.now.expr) }
        ensures { ParsesTo (spec.nested (is_positive self.now.levels) (spec.expr self.now.levels) tokens.old.rest.now)
            result tokens.new.rest.now }
    {
        if tokens.sees(TokenKind::LParen) {
            return self.parenthesized(tokens);
        }
        if tokens.sees(TokenKind::LBracket) {
            return self.set(tokens);
        }
        self.braced(tokens)
    }

    /// Parses Variable | Uid | Call | "(" Expr ")" | "[" Arguments "]" | "{" .. "}" | Literal. If an opening bracket
    /// comes next and no level of nesting is left, the error is `TooDeep`.
    #[tactic(auto, unfolding(crate::specs::inner::Reading::primary))]
    pub(crate) fn primary(&self, tokens: &mut Cursor<'_>) -> Result<ExprTree, StopCause>
        requires { Nests self.now.levels (F.pre self.now.expr) (F.post self.now.expr) }
        ensures { ParsesTo (spec.primary (is_positive self.now.levels) (spec.expr self.now.levels) tokens.old.rest.now)
            result tokens.new.rest.now }
    {
        if tokens.sees_one_of(NameSet::Identifiers) {
            return self.named(tokens);
        }
        if !tokens.sees_one_of(TokenSet::Openers) {
            return literal(tokens);
        }
        if self.levels == 0 {
            return Err(StopCause::TooDeep);
        }
        self.nested(tokens)
    }
}
