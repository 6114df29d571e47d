//! Core expressions.
use crate::leaf::{Literal, Variable};
use crate::operator::{Binary, BinaryCall, Unary, UnaryCall};
use plain::{Items, Shared, Text};

/// A value with a name, such as a field of a record.
#[derive(Drop)]
pub struct Named<T> {
    /// The name.
    pub name: Text,
    /// The value of that name.
    pub value: T,
}

/// A core expression: an expression after rewriting. `a != b` is rewritten to `!(a == b)`, `a > b` to `!(a <= b)`,
/// `a >= b` to `!(a < b)`, `a is T in b` to `a is T && a in b`, and `a["f"]` to `a.f`.
///
/// Calls have two variants, so that each call has as many operands as its function or method takes.
///
/// Source: Cedar reference guide, "Grammar" and "Operators and functions".
#[derive(Drop)]
pub enum Expr {
    /// A literal value.
    Literal(Literal),
    /// A part of the request.
    Variable(Variable),
    /// `if`, with its test and its two branches.
    If(Shared<Expr>, Shared<Expr>, Shared<Expr>),
    /// `&&`.
    And(Shared<Expr>, Shared<Expr>),
    /// `||`.
    Or(Shared<Expr>, Shared<Expr>),
    /// An operator with its operand.
    Unary(Unary, Shared<Expr>),
    /// An operator with its operands.
    Binary(Binary, Shared<Expr>, Shared<Expr>),
    /// `.`: the value of the field of a record, or of the attribute of an entity, with this name.
    Field(Shared<Expr>, Text),
    /// `has`: whether a record has a field, or an entity an attribute, with this name.
    Has(Shared<Expr>, Text),
    /// A set of these members.
    Set(Items<Expr>),
    /// A record of these fields, in the order in which they are written.
    Record(Items<Named<Expr>>),
    /// A call of a function or a method with one operand.
    UnaryCall(UnaryCall, Shared<Expr>),
    /// A call of a method with two operands.
    BinaryCall(BinaryCall, Shared<Expr>, Shared<Expr>),
}
