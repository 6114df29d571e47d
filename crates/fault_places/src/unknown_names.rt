//! The search for the first name of a policy that the schema does not declare.
ghost use Rattle.std.specs.Prelude.{IfOk, MatchOption, All};
ghost use Rattle.type_checker.specs.schema.Views.{schema_view};
ghost use Rattle.validator.specs.Names.{names_in};
ghost use Rattle.validator.specs.Unknown.{IsKnown};
ghost use Rattle.fault_places.specs.NamesAt.{IsNameBlame};
ghost use Rattle.fault_places.specs.inner.UnknownNames.{IsOwnName, IsNameFound};

use grammar_core::{Expr, Literal, Unary};
use plain::NoMemory;
use std::alloc::Global;
use type_checker::Schema;
use typing::operand;
use validator::{TypeFault, unknown_entity, unknown_tested_type};
use values::{EntityUid, TypeName};

/// A name that a schema does not declare.
#[derive(Clone, Copy)]
pub enum UnknownName<'a> {
    /// A type after `is`.
    TestedType(&'a TypeName),
    /// The uid of a literal.
    Entity(&'a EntityUid),
}

/// An undeclared name with its error.
pub(crate) struct NameFault<'a> {
    pub(crate) name: UnknownName<'a>,
    pub(crate) fault: TypeFault,
}

/// The first name of a policy that the schema does not declare.
#[derive(Drop)]
pub struct NameBlame<'a> {
    /// The error, as [`check`](validator::check) returns it.
    pub fault: TypeFault,
    /// The name.
    pub name: UnknownName<'a>,
    /// The indexes of operands that lead from the whole expression to the form with the name.
    pub path: Vec<usize>,
}

/// Returns the name that a form itself has with its error if the schema does not declare it, else `None`.
fn own_unknown_name<'a>(schema: &Schema, expr: &'a Expr) -> Option<NameFault<'a>>
    ensures { IsOwnName (schema_view schema.now) expr.entry.now result }
{
    match expr {
        Expr::Literal(literal) => match literal {
            Literal::Entity(uid) => match unknown_entity(schema, uid) {
                Some(fault) => Some(NameFault {
                    name: UnknownName::Entity(uid),
                    fault,
                }),
                None => None,
            },
            _ => None,
        },
        Expr::Unary(operator, _) => match operator {
            Unary::Is(name) => match unknown_tested_type(schema, name) {
                Some(fault) => Some(NameFault {
                    name: UnknownName::TestedType(name),
                    fault,
                }),
                None => None,
            },
            _ => None,
        },
        _ => None,
    }
}

/// Returns the first name of an expression that the schema does not declare, and appends to `path` the path from the
/// expression to the name. If the schema declares all names, returns `None` and leaves `path` unchanged.
fn find<'a>(
    schema: &Schema,
    expr: &'a Expr,
    path: &mut Vec<usize>,
) -> Result<Option<NameFault<'a>>, NoMemory>
    ensures { IfOk result (IsNameFound (schema_view schema.now) expr.entry.now path.old.items path.new.items) }
{
    let mut at = 0usize;
    'each: loop {
        match operand(expr, at) {
            Some(next) => {
                path.push(at)?;
                match find(schema, next, path) {
                    Err(error) => return Err(error),
                    Ok(Some(found)) => return Ok(Some(found)),
                    Ok(None) => {
                        let _ = path.pop();
                        at += 1;
                    }
                }
            }
            None => return Ok(own_unknown_name(schema, expr)),
        }
    }
}

/// Returns the first name of an expression that the schema does not declare, or `None` if it declares all.
///
/// # Errors
///
/// - `NoMemory`: an allocation failed.
pub fn blame_name<'a>(
    alloc: Global,
    schema: &Schema,
    whole: &'a Expr,
) -> Result<Option<NameBlame<'a>>, NoMemory>
    ensures { let s = schema_view schema.now in IfOk result (λ blame. MatchOption blame
        (All (IsKnown s) (names_in whole.entry.now)) (IsNameBlame s whole.entry.now)) }
{
    let mut path = Vec::new(alloc);
    match find(schema, whole, &mut path) {
        Err(error) => Err(error),
        Ok(None) => Ok(None),
        Ok(Some(found)) => {
            let NameFault { name, fault } = found;
            Ok(Some(NameBlame { fault, name, path }))
        }
    }
}
