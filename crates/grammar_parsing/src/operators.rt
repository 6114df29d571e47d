//! Parsers of accesses and operators, from the highest precedence to the lowest.

ghost use Rattle.std.specs.Prelude.{◌≡◌, IfOk};
ghost use Rattle.grammar_parsing.specs.inner.Reading as spec;
ghost use Rattle.grammar_parsing.specs.Expressions as grammar;
ghost use Rattle.grammar_parsing.specs.Expressions.{is_positive};
ghost use Rattle.grammar_syntax.specs.ParsesTo.{ParsesTo};
ghost use Rattle.grammar_parsing.specs.inner.Nests.{Nests};
ghost use Rattle.grammar_parsing.specs.inner.Prefixes as prefixes;
ghost use Rattle.grammar_syntax.specs.declared.tree.ExprTree.TheVariants as tree;

use crate::levels::{Level, chain};
use crate::primary::{Reader, indexed};
use crate::symbols::take_symbol;
use crate::token_sets::TokenSet;
use grammar_syntax::{
    Access, Cursor, ExprTree, KeyTree, NameSet, Related, Sign, StopCause, Term, TokenKind, relation,
};
use plain::{Boxed, Items};
use std::alloc::{AllocError, Global};

/// An operator that may occur up to four times before a Member.
#[derive(Clone, Copy)]
pub(crate) enum Prefix {
    /// `!`
    Not,
    /// `-`
    Minus,
}

impl Prefix {
    /// Returns the kind of the prefix's token.
    fn kind(self) -> TokenKind
        ensures { result ≡ prefixes.kind_of self }
    {
        match self {
            Prefix::Not => TokenKind::Not,
            Prefix::Minus => TokenKind::Minus,
        }
    }
}

/// Returns the tree of a prefix with its operand.
fn under(alloc: Global, prefix: Prefix, x: ExprTree) -> Result<ExprTree, AllocError>
    ensures { IfOk result (λ e. e ≡ prefixes.under prefix x) }
{
    let x = Boxed::new(alloc, x)?;
    match prefix {
        Prefix::Not => Ok(ExprTree::Not(x)),
        Prefix::Minus => Ok(ExprTree::Minus(x)),
    }
}

impl<F: Fn(Global, &mut Cursor<'_>, usize) -> Result<ExprTree, StopCause>> Reader<F> {
    /// Parses "(" Arguments ")" if "(" comes next, else returns `None`. If "(" comes next and no level of nesting is
    /// left, the error is `TooDeep`.
    #[tactic(auto, unfolding(crate::specs::inner::Reading::maybe_called))]
    fn maybe_called(&self, tokens: &mut Cursor<'_>) -> Result<Option<Items<ExprTree>>, StopCause>
        requires { Nests self.now.levels (F.pre self.now.expr) (F.post self.now.expr) }
        ensures { ParsesTo (spec.maybe_called (is_positive self.now.levels) (spec.expr self.now.levels)
            tokens.old.rest.now)
            result tokens.new.rest.now }
    {
        if !tokens.sees(TokenKind::LParen) {
            return Ok(None);
        }
        if self.levels == 0 {
            return Err(StopCause::TooDeep);
        }
        let found = self.called(tokens)?;
        Ok(Some(found))
    }

    /// Parses "." Ident [ "(" Arguments ")" ].
    #[tactic(auto, unfolding(crate::specs::inner::Reading::dotted))]
    fn dotted(&self, tokens: &mut Cursor<'_>) -> Result<Access<Items<ExprTree>>, StopCause>
        requires { Nests self.now.levels (F.pre self.now.expr) (F.post self.now.expr) }
        ensures { ParsesTo (spec.dotted (is_positive self.now.levels) (spec.expr self.now.levels) tokens.old.rest.now)
            result tokens.new.rest.now }
    {
        tokens.take(TokenKind::Dot)?;
        let name = tokens.take_one_of(NameSet::Identifiers)?;
        match self.maybe_called(tokens)? {
            None => Ok(Access::Field(KeyTree::Word(name))),
            Some(found) => Ok(Access::Method(name, found)),
        }
    }

    /// Parses Primary { "." Ident [ "(" Arguments ")" ] | "[" String "]" }.
    #[tactic(auto, unfolding(crate::specs::inner::Reading::member, crate::specs::inner::Reading::accesses))]
    fn member(&self, tokens: &mut Cursor<'_>) -> Result<ExprTree, StopCause>
        requires { Nests self.now.levels (F.pre self.now.expr) (F.post self.now.expr) }
        ensures { ParsesTo (spec.member (is_positive self.now.levels) (spec.expr self.now.levels) tokens.old.rest.now)
            result tokens.new.rest.now }
    {
        let first = self.primary(tokens)?;
        chain(
            self.alloc,
            tokens,
            &Members(self),
            TokenSet::AccessStarts,
            first,
        )
    }

    /// Parses at most `most` tokens of the prefix `sign`, and a Member.
    fn signed(&self, tokens: &mut Cursor<'_>, sign: Prefix, most: u8) -> Result<ExprTree, StopCause>
        requires { Nests self.now.levels (F.pre self.now.expr) (F.post self.now.expr) }
        ensures { ParsesTo (spec.signed (is_positive self.now.levels) (spec.expr self.now.levels)
            (prefixes.kind_of sign) (prefixes.under sign) most tokens.old.rest.now)
            result tokens.new.rest.now }
    {
        if most == 0 {
            return self.member(tokens);
        }
        if !tokens.sees(sign.kind()) {
            return self.member(tokens);
        }
        tokens.take(sign.kind())?;
        let x = self.signed(tokens, sign, most - 1)?;
        Ok(under(self.alloc, sign, x)?)
    }

    /// Parses up to four "!" or four "-", and a Member.
    #[tactic(auto, unfolding(crate::specs::inner::Reading::unary, crate::specs::inner::Reading::signed))]
    fn unary(&self, tokens: &mut Cursor<'_>) -> Result<ExprTree, StopCause>
        requires { Nests self.now.levels (F.pre self.now.expr) (F.post self.now.expr) }
        ensures { ParsesTo (spec.unary (is_positive self.now.levels) (spec.expr self.now.levels) tokens.old.rest.now)
            result tokens.new.rest.now }
    {
        if tokens.sees(TokenKind::Not) {
            return self.signed(tokens, Prefix::Not, 4);
        }
        self.signed(tokens, Prefix::Minus, 4)
    }

    /// Parses Unary { "*" Unary }.
    #[tactic(auto, unfolding(crate::specs::inner::Reading::product, crate::specs::inner::Reading::factors))]
    fn product(&self, tokens: &mut Cursor<'_>) -> Result<ExprTree, StopCause>
        requires { Nests self.now.levels (F.pre self.now.expr) (F.post self.now.expr) }
        ensures { ParsesTo (spec.product (is_positive self.now.levels) (spec.expr self.now.levels) tokens.old.rest.now)
            result tokens.new.rest.now }
    {
        let first = self.unary(tokens)?;
        chain(self.alloc, tokens, &Products(self), TokenKind::Star, first)
    }

    /// Parses Product { ("+" | "-") Product }.
    #[tactic(auto, unfolding(crate::specs::inner::Reading::sum, crate::specs::inner::Reading::terms))]
    pub(crate) fn sum(&self, tokens: &mut Cursor<'_>) -> Result<ExprTree, StopCause>
        requires { Nests self.now.levels (F.pre self.now.expr) (F.post self.now.expr) }
        ensures { ParsesTo (spec.sum (is_positive self.now.levels) (spec.expr self.now.levels) tokens.old.rest.now)
            result tokens.new.rest.now }
    {
        let first = self.product(tokens)?;
        chain(self.alloc, tokens, &Sums(self), TokenSet::Signs, first)
    }

    /// Parses Sum [ comparison Sum | "has" (Ident | String) | "like" Pattern | "is" Path [ "in" Sum ] ].
    #[tactic(auto, unfolding(crate::specs::inner::Reading::relation))]
    fn relation(&self, tokens: &mut Cursor<'_>) -> Result<ExprTree, StopCause>
        requires { Nests self.now.levels (F.pre self.now.expr) (F.post self.now.expr) }
        ensures { ParsesTo (spec.relation (is_positive self.now.levels) (spec.expr self.now.levels) tokens.old.rest.now)
            result tokens.new.rest.now }
    {
        relation(tokens, &Relations(self))
    }

    /// Parses Relation { "&&" Relation }.
    #[tactic(auto, unfolding(crate::specs::inner::Reading::conjunction, crate::specs::inner::Reading::ands))]
    fn conjunction(&self, tokens: &mut Cursor<'_>) -> Result<ExprTree, StopCause>
        requires { Nests self.now.levels (F.pre self.now.expr) (F.post self.now.expr) }
        ensures { ParsesTo (spec.conjunction (is_positive self.now.levels)
            (spec.expr self.now.levels) tokens.old.rest.now)
            result tokens.new.rest.now }
    {
        let first = self.relation(tokens)?;
        chain(
            self.alloc,
            tokens,
            &Conjunctions(self),
            TokenKind::And,
            first,
        )
    }

    /// Parses And { "||" And }.
    #[tactic(auto, unfolding(crate::specs::inner::Reading::disjunction, crate::specs::inner::Reading::ors))]
    pub(crate) fn disjunction(&self, tokens: &mut Cursor<'_>) -> Result<ExprTree, StopCause>
        requires { Nests self.now.levels (F.pre self.now.expr) (F.post self.now.expr) }
        ensures { ParsesTo (spec.disjunction (is_positive self.now.levels)
            (spec.expr self.now.levels) tokens.old.rest.now)
            result tokens.new.rest.now }
    {
        let first = self.conjunction(tokens)?;
        chain(
            self.alloc,
            tokens,
            &Disjunctions(self),
            TokenKind::Or,
            first,
        )
    }
}

/// The level of a Member: accesses after a Primary.
#[derive(Drop)]
struct Members<'r, F>(&'r Reader<F>);

impl<F: Fn(Global, &mut Cursor<'_>, usize) -> Result<ExprTree, StopCause>> Level
    for Members<'_, F> {
    type Piece = Access<Items<ExprTree>>;

    ghost can_read = { λ s. Nests s.0.now.levels (F.pre s.0.now.expr) (F.post s.0.now.expr) };

    ghost pieces = { λ s. spec.accessing (is_positive s.0.now.levels) (spec.expr s.0.now.levels) };

    ghost joins = { tree.Member };

    #[tactic(auto, unfolding(crate::specs::inner::Reading::accessing))]
    fn piece(&self, tokens: &mut Cursor<'_>) -> Result<Access<Items<ExprTree>>, StopCause> {
        if tokens.sees(TokenKind::Dot) {
            return self.0.dotted(tokens);
        }
        indexed(tokens)
    }

    fn join(first: Boxed<ExprTree>, more: Items<Access<Items<ExprTree>>>) -> ExprTree
        ensures { result ≡ tree.Member first more }
    {
        ExprTree::Member(first, more)
    }
}

/// The level of a Product: factors after a Unary.
#[derive(Drop)]
struct Products<'r, F>(&'r Reader<F>);

impl<F: Fn(Global, &mut Cursor<'_>, usize) -> Result<ExprTree, StopCause>> Level
    for Products<'_, F> {
    type Piece = ExprTree;

    ghost can_read = { λ s. Nests s.0.now.levels (F.pre s.0.now.expr) (F.post s.0.now.expr) };

    ghost pieces = { λ s. spec.factor (is_positive s.0.now.levels) (spec.expr s.0.now.levels) };

    ghost joins = { tree.Product };

    #[tactic(auto, unfolding(crate::specs::inner::Reading::factor))]
    fn piece(&self, tokens: &mut Cursor<'_>) -> Result<ExprTree, StopCause> {
        tokens.take(TokenKind::Star)?;
        self.0.unary(tokens)
    }

    fn join(first: Boxed<ExprTree>, more: Items<ExprTree>) -> ExprTree
        ensures { result ≡ tree.Product first more }
    {
        ExprTree::Product(first, more)
    }
}

/// The level of a Sum: ("+" | "-") Product after a Product.
#[derive(Drop)]
struct Sums<'r, F>(&'r Reader<F>);

impl<F: Fn(Global, &mut Cursor<'_>, usize) -> Result<ExprTree, StopCause>> Level for Sums<'_, F> {
    type Piece = Term<ExprTree>;

    ghost can_read = { λ s. Nests s.0.now.levels (F.pre s.0.now.expr) (F.post s.0.now.expr) };

    ghost pieces = { λ s. spec.term (is_positive s.0.now.levels) (spec.expr s.0.now.levels) };

    ghost joins = { tree.Sum };

    #[tactic(auto, unfolding(crate::specs::inner::Reading::term))]
    fn piece(&self, tokens: &mut Cursor<'_>) -> Result<Term<ExprTree>, StopCause> {
        let sign = take_symbol::<Sign>(tokens)?;
        let operand = self.0.product(tokens)?;
        Ok(Term { sign, operand })
    }

    fn join(first: Boxed<ExprTree>, more: Items<Term<ExprTree>>) -> ExprTree
        ensures { result ≡ tree.Sum first more }
    {
        ExprTree::Sum(first, more)
    }
}

/// The form of a Relation: a Sum and its tail.
#[derive(Drop)]
struct Relations<'r, F>(&'r Reader<F>);

impl<F: Fn(Global, &mut Cursor<'_>, usize) -> Result<ExprTree, StopCause>> Related
    for Relations<'_, F> {
    ghost can_read = { λ s. Nests s.0.now.levels (F.pre s.0.now.expr) (F.post s.0.now.expr) };

    ghost operands = { λ s. grammar.sum (is_positive s.0.now.levels) (grammar.expr s.0.now.levels) };

    ghost tailed = { λ s. grammar.tailed (is_positive s.0.now.levels) (grammar.expr s.0.now.levels) };

    ghost reads_operand = { λ s. spec.sum (is_positive s.0.now.levels) (spec.expr s.0.now.levels) };

    ghost reads_tail = { λ s. spec.related (is_positive s.0.now.levels) (spec.expr s.0.now.levels) };

    fn operand(&self, tokens: &mut Cursor<'_>) -> Result<ExprTree, StopCause> {
        self.0.sum(tokens)
    }

    fn with_tail(&self, tokens: &mut Cursor<'_>, x: ExprTree) -> Result<ExprTree, StopCause> {
        self.0.related(tokens, x)
    }
}

/// The level of an And: "&&" Relation after a Relation.
#[derive(Drop)]
struct Conjunctions<'r, F>(&'r Reader<F>);

impl<F: Fn(Global, &mut Cursor<'_>, usize) -> Result<ExprTree, StopCause>> Level
    for Conjunctions<'_, F> {
    type Piece = ExprTree;

    ghost can_read = { λ s. Nests s.0.now.levels (F.pre s.0.now.expr) (F.post s.0.now.expr) };

    ghost pieces = { λ s. spec.next_and (is_positive s.0.now.levels) (spec.expr s.0.now.levels) };

    ghost joins = { tree.And };

    #[tactic(auto, unfolding(crate::specs::inner::Reading::next_and))]
    fn piece(&self, tokens: &mut Cursor<'_>) -> Result<ExprTree, StopCause> {
        tokens.take(TokenKind::And)?;
        self.0.relation(tokens)
    }

    fn join(first: Boxed<ExprTree>, more: Items<ExprTree>) -> ExprTree
        ensures { result ≡ tree.And first more }
    {
        ExprTree::And(first, more)
    }
}

/// The level of an Or: "||" And after an And.
#[derive(Drop)]
struct Disjunctions<'r, F>(&'r Reader<F>);

impl<F: Fn(Global, &mut Cursor<'_>, usize) -> Result<ExprTree, StopCause>> Level
    for Disjunctions<'_, F> {
    type Piece = ExprTree;

    ghost can_read = { λ s. Nests s.0.now.levels (F.pre s.0.now.expr) (F.post s.0.now.expr) };

    ghost pieces = { λ s. spec.next_or (is_positive s.0.now.levels) (spec.expr s.0.now.levels) };

    ghost joins = { tree.Or };

    #[tactic(auto, unfolding(crate::specs::inner::Reading::next_or))]
    fn piece(&self, tokens: &mut Cursor<'_>) -> Result<ExprTree, StopCause> {
        tokens.take(TokenKind::Or)?;
        self.0.conjunction(tokens)
    }

    fn join(first: Boxed<ExprTree>, more: Items<ExprTree>) -> ExprTree
        ensures { result ≡ tree.Or first more }
    {
        ExprTree::Or(first, more)
    }
}
