//! Syntax trees of expressions.
use crate::name_trees::{PathTree, UidTree};
use crate::token::Token;
use plain::{Boxed, Items};

/// A keyword for a part of the request.
#[derive(Clone, Copy, PartialEq, Eq)]
pub enum RequestKeyword {
    /// `principal`
    Principal,
    /// `action`
    Action,
    /// `resource`
    Resource,
    /// `context`
    Context,
}

/// The operator before a further term of a sum.
#[derive(Clone, Copy, PartialEq, Eq)]
pub enum Sign {
    /// `+`
    Plus,
    /// `-`
    Minus,
}

/// A comparison operator.
#[derive(Clone, Copy, PartialEq, Eq)]
pub enum Comparison {
    /// `<`
    Less,
    /// `<=`
    LessOrEqual,
    /// `>`
    Greater,
    /// `>=`
    GreaterOrEqual,
    /// `==`
    Equal,
    /// `!=`
    NotEqual,
    /// `in`
    In,
}

/// The name of a field, or a key in a record.
#[derive(Clone, Copy)]
pub enum KeyTree {
    /// An identifier.
    Word(Token),
    /// A string without `\*`.
    Quoted(Token),
}

/// What follows an expression to access its field, or to call its method. `A` is the type of the list of arguments.
#[derive(Drop)]
pub enum Access<A> {
    /// `.name` or `["name"]`
    Field(KeyTree),
    /// `.name(..)`
    Method(Token, A),
}

/// A further term of a sum.
#[derive(Drop)]
pub struct Term<T> {
    pub sign: Sign,
    pub operand: T,
}

/// `key: value` in a record.
#[derive(Drop)]
pub struct RecordEntry<T> {
    pub key: KeyTree,
    pub value: T,
}

/// The syntax tree of an expression.
///
/// Operands of one level of operators, and accesses, are side by side in a list. So only parentheses, brackets, braces,
/// arguments and `if` increase the height much, and in a parsed tree these nest at most 64 levels deep.
#[derive(Drop)]
pub enum ExprTree {
    /// `true` or `false`.
    Boolean(bool),
    Number(Token),
    /// A string without `\*`.
    Text(Token),
    Variable(RequestKeyword),
    Uid(UidTree),
    /// A call of a function: its name and its arguments.
    Call(PathTree, Items<ExprTree>),
    Parentheses(Boxed<ExprTree>),
    Set(Items<ExprTree>),
    Record(Items<RecordEntry<ExprTree>>),
    /// An expression and one or more accesses.
    Member(Boxed<ExprTree>, Items<Access<Items<ExprTree>>>),
    /// `!`
    Not(Boxed<ExprTree>),
    /// A unary `-`.
    Minus(Boxed<ExprTree>),
    /// The first factor and one or more further ones.
    Product(Boxed<ExprTree>, Items<ExprTree>),
    /// The first term and one or more further ones.
    Sum(Boxed<ExprTree>, Items<Term<ExprTree>>),
    /// A comparison between its operands.
    Compare(Boxed<ExprTree>, Comparison, Boxed<ExprTree>),
    /// `has`, with a field's name.
    Has(Boxed<ExprTree>, KeyTree),
    /// `like`, with a pattern: a string in which `\*` may occur.
    Like(Boxed<ExprTree>, Token),
    /// `is`
    Is(Boxed<ExprTree>, PathTree),
    /// `e is T in f`
    IsIn(Boxed<ExprTree>, PathTree, Boxed<ExprTree>),
    /// The first operand of `&&` and one or more further ones.
    And(Boxed<ExprTree>, Items<ExprTree>),
    /// The first operand of `||` and one or more further ones.
    Or(Boxed<ExprTree>, Items<ExprTree>),
    /// `if`: the test, and its two branches.
    If(Boxed<ExprTree>, Boxed<ExprTree>, Boxed<ExprTree>),
}
