//! A test of whether an attribute that cannot be accessed is declared.
ghost use Rattle.std.specs.Prelude.{◌≡◌, ◌↔◌, IsTrue, IfOk, true, Ok};
ghost use Rattle.type_checker.specs.schema.Views.{schema_view, environment_view};
ghost use Rattle.type_checker.specs.FromSchemas.{typing_environment_of};
ghost use Rattle.type_checker.specs.Views.{static_view};
ghost use Rattle.typing.specs.Types as types;
ghost use Rattle.typing.specs.Rows.{field_type_of};

use plain::NoMemory;
use type_checker::{Environment, Schema, StaticType, TypingEnvironment, drop_type, field_type};
use validator::TypeFault;

/// Returns whether the type `owner` declares the attribute `name`, as required or optional.
///
/// A policy may access a declared attribute if a test by `has` shows the attribute to be present. For an undeclared
/// attribute no such test helps.
///
/// # Errors
///
/// - `NoMemory`: an expression built the attribute's type, and the count of references to it would overflow.
pub fn is_declared<'a>(
    schema: &'a Schema,
    environment: &'a Environment,
    owner: &StaticType<'a>,
    name: &str,
) -> Result<bool, NoMemory>
    ensures { let E = typing_environment_of (schema_view schema.entry.now) (environment_view environment.entry.now) in
        IfOk result (λ b. IsTrue b
        ↔ ((t : types.StaticType) × (field_type_of E true name.now (static_view owner.now) ≡ Ok t))) }
{
    let env = TypingEnvironment::new(schema, environment);
    match field_type(env, true, name, owner) {
        Ok(kind) => {
            drop_type(kind);
            Ok(true)
        }
        Err(fault) => match fault {
            TypeFault::NoMemory => Err(NoMemory),
            _ => Ok(false),
        },
    }
}
