//! The check that a schema declares each name of an expression, in the order of the text.
ghost use Rattle.std.specs.Prelude.{◌≡◌, map};
ghost use Rattle.type_checker.specs.schema.Views.{schema_view};
ghost use Rattle.validator.specs.inner.Walking.{in_turn, literal_check, operator_check, walk, named_walk};
ghost use Rattle.grammar_core.specs.Size.{values_of};

use crate::known::{check_entity, check_tested_type};
use grammar_core::{Expr, Literal, Named, Unary};
use plain::Shared;
use type_checker::{Schema, TypeFault};

/// Checks the entity of an entity literal; other literals contain no name.
fn check_literal(schema: &Schema, literal: &Literal) -> Result<(), TypeFault>
    ensures { result ≡ literal_check (schema_view schema.now) literal.now }
{
    match literal {
        Literal::Entity(uid) => check_entity(schema, uid),
        Literal::Boolean(_) | Literal::Long(_) | Literal::Text(_) => Ok(()),
    }
}

/// Checks the type after an `is`; other operators contain no name.
fn check_operator(schema: &Schema, operator: &Unary) -> Result<(), TypeFault>
    ensures { result ≡ operator_check (schema_view schema.now) operator.now }
{
    match operator {
        Unary::Is(name) => check_tested_type(schema, name),
        Unary::Not | Unary::Negate | Unary::Like(_) => Ok(()),
    }
}

/// Checks that each name of an expression is declared, also in operands that are never evaluated. Returns the error of
/// the first undeclared name.
///
/// Does not allocate. The stack grows with the height of the expression.
#[cycle(walk)]
pub(crate) fn walk(schema: &Schema, expr: &Expr) -> Result<(), TypeFault>
    ensures { result ≡ walk (schema_view schema.now) expr.now }
{
    match expr {
        Expr::Literal(literal) => check_literal(schema, literal),
        Expr::Variable(_) => Ok(()),
        Expr::If(test, consequent, alternative) => {
            walk(schema, test)?;
            walk(schema, consequent)?;
            walk(schema, alternative)
        }
        Expr::And(left, right) => {
            walk(schema, left)?;
            walk(schema, right)
        }
        Expr::Or(left, right) => {
            walk(schema, left)?;
            walk(schema, right)
        }
        Expr::Unary(operator, operand) => {
            walk(schema, operand)?;
            check_operator(schema, operator)
        }
        Expr::Binary(_, left, right) => {
            walk(schema, left)?;
            walk(schema, right)
        }
        Expr::Field(owner, _) => walk(schema, owner),
        Expr::Has(owner, _) => walk(schema, owner),
        Expr::Set(members) => walk_each(schema, members.as_slice()),
        Expr::Record(fields) => walk_fields(schema, fields.as_slice()),
        Expr::UnaryCall(_, operand) => walk(schema, operand),
        Expr::BinaryCall(_, left, right) => {
            walk(schema, left)?;
            walk(schema, right)
        }
    }
}

/// Checks several expressions in turn; returns the first error.
#[cycle(walk)]
pub(crate) fn walk_each(schema: &Schema, exprs: &[Expr]) -> Result<(), TypeFault>
    ensures { result ≡ in_turn (map (walk (schema_view schema.now)) exprs.now) }
{
    for expr in exprs {
        walk(schema, expr)?;
    }
    Ok(())
}

/// Checks the values of a record's fields in turn; returns the first error.
#[cycle(walk)]
fn walk_fields(schema: &Schema, fields: &[Named<Expr>]) -> Result<(), TypeFault>
    ensures { result ≡ in_turn (values_of (map (named_walk (schema_view schema.now)) fields.now)) }
{
    for field in fields {
        walk(schema, &field.value)?;
    }
    Ok(())
}
