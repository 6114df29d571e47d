//! The report on a policy that does not pass validation.
ghost use Rattle.std.specs.Prelude.{◌≡◌, IfOk, MatchOption};
ghost use Rattle.policy_grammar.specs.PolicyExpression.{expression_of};
ghost use Rattle.type_checker.specs.schema.Views.{schema_view};
ghost use Rattle.validator.specs.Passing.{Passes};
ghost use Rattle.fault_places.specs.PolicyReports.{IsBlame};

use crate::blaming::{TypeBlame, blame_type};
use crate::unknown_names::{NameBlame, blame_name};
use grammar_core::Expr;
use plain::NoMemory;
use policy_grammar::Policy;
use std::alloc::Global;
use type_checker::Schema;

/// The error for which a policy is rejected, with the name or expression that it blames.
#[derive(Drop)]
pub enum PolicyBlame<'a> {
    /// A name that the schema does not declare (40, 41).
    Name(NameBlame<'a>),
    /// A typing error (42 to 46).
    Typing(TypeBlame<'a>),
}

/// Returns the error for which a policy is rejected, with its place, or `None` if the policy passes.
///
/// `whole` is the policy's expression, as [`expression_of`](validator::expression_of) builds it: paths begin at its
/// root. The error is the one that [`check`](validator::check) returns.
///
/// # Errors
///
/// - `NoMemory`: an allocation failed.
pub fn blame<'a>(
    alloc: Global,
    schema: &'a Schema,
    policy: &Policy,
    whole: &'a Expr,
) -> Result<Option<PolicyBlame<'a>>, NoMemory>
    requires { whole.now ≡ expression_of policy.now }
    ensures { let s = schema_view schema.entry.now in IfOk result (λ blame. MatchOption blame
        (Passes s policy.now) (IsBlame s policy.now)) }
{
    match blame_name(alloc, schema, whole) {
        Err(error) => Err(error),
        Ok(Some(name)) => Ok(Some(PolicyBlame::Name(name))),
        Ok(None) => match blame_type(alloc, schema, policy, whole) {
            Err(error) => Err(error),
            Ok(Some(error)) => Ok(Some(PolicyBlame::Typing(error))),
            Ok(None) => Ok(None),
        },
    }
}
