//! The report on a policy that does not pass validation, in words.
ghost use Rattle.std.specs.Prelude.{◌≡◌, ◌++◌, IfOk, OnOk, MatchOption, string_bytes};
ghost use Rattle.policy_grammar.specs.PolicyExpression.{expression_of};
ghost use Rattle.type_checker.specs.schema.Views.{schema_view};
ghost use Rattle.validator.specs.Passing.{Passes};
ghost use Rattle.fault_places.specs.PolicyReports.{fault_of};
ghost use Rattle.fault_places.specs.ReportWording.{IsPolicyFault, path_of, cause_of, detail_of};

use crate::causes::typing_cause;
use crate::descending::BlamedForm;
use crate::details::{push_detail, push_name_detail};
use crate::refusing::{PolicyBlame, blame};
use crate::wording::push_name;
use grammar_core::Expr;
use plain::NoMemory;
use policy_grammar::Policy;
use std::alloc::Global;
use type_checker::{Schema, drop_types};
use validator::{TypeFault, drop_expression, expression_of};

/// Why a policy does not pass validation, in words.
#[derive(Drop)]
pub struct PolicyFault {
    /// The error, as [`check`](validator::check) returns it.
    pub fault: TypeFault,
    /// The indexes of operands that lead from the policy's whole expression to the blamed expression, or to the form
    /// with the undeclared name.
    pub path: Vec<usize>,
    /// The undeclared name, or the attribute that is undeclared or may be missing (`AttributeMayBeMissing`, 44); empty
    /// for other errors.
    pub cause: String,
    /// For a typing error the first environment that has an error, and then the types that the demand is about or, for
    /// `AttributeMayBeMissing`, whether the attribute is declared, and if not, which attributes its type has. For an
    /// undeclared action (`UnknownAction`, 41) the actions that the schema declares; empty for an undeclared entity
    /// type (`UnknownType`, 40).
    pub detail: String,
}

/// Appends the cause and the details of an error to `cause` and `detail`.
fn push_words<'a>(
    cause: &mut String,
    detail: &mut String,
    schema: &'a Schema,
    blame: &PolicyBlame<'a>,
) -> Result<(), NoMemory>
    ensures { OnOk result ((string_bytes cause.new ≡ string_bytes cause.old ++ cause_of blame.now)
        × (string_bytes detail.new
        ≡ string_bytes detail.old ++ detail_of (schema_view schema.entry.now) blame.now)) }
{
    match blame {
        PolicyBlame::Name(blame) => {
            push_name(cause, &blame.name)?;
            push_name_detail(detail, schema, blame.fault)
        }
        PolicyBlame::Typing(blame) => {
            cause.push_str(typing_cause(blame.fault, blame.place.form))?;
            push_detail(detail, schema, blame)
        }
    }
}

/// Returns the error that `blame` reports, and the path to the blamed expression, or to the form with the undeclared
/// name.
fn fault_and_path(blame: PolicyBlame<'_>) -> (TypeFault, Vec<usize>)
    ensures fault { result.0 ≡ fault_of blame.entry }
    ensures path { result.1.items ≡ path_of blame.entry }
{
    match blame {
        PolicyBlame::Name(blame) => (blame.fault, blame.path),
        PolicyBlame::Typing(blame) => {
            let BlamedForm { path, types, .. } = blame.place;
            drop_types(types);
            (blame.fault, path)
        }
    }
}

/// Returns the report on why a policy with the expression `whole` does not pass validation, or `None` if it passes.
fn explain_whole<'a>(
    alloc: Global,
    schema: &'a Schema,
    policy: &Policy,
    whole: &'a Expr,
) -> Result<Option<PolicyFault>, NoMemory>
    requires { whole.now ≡ expression_of policy.now }
    ensures { let s = schema_view schema.entry.now in IfOk result (λ o. MatchOption o
        (Passes s policy.now) (IsPolicyFault s policy.now)) }
{
    match blame(alloc, schema, policy, whole) {
        Err(error) => Err(error),
        Ok(None) => Ok(None),
        Ok(Some(blame)) => {
            let mut cause = String::new(alloc);
            let mut detail = String::new(alloc);
            let worded = push_words(&mut cause, &mut detail, schema, &blame);
            let (fault, path) = fault_and_path(blame);
            match worded {
                Err(error) => Err(error),
                Ok(()) => Ok(Some(PolicyFault {
                    fault,
                    path,
                    cause,
                    detail,
                })),
            }
        }
    }
}

/// Returns why a policy does not pass validation, in words, or `None` if it passes.
///
/// The error is the one that [`check`](validator::check) returns, and the environment is the first that has an error.
/// Types the policy once in each environment up to this one. In this one, types parts of the policy once more for each
/// level of the path to the blamed expression. For an undeclared attribute or action also takes time linear in the
/// names of the declared ones.
///
/// # Errors
///
/// - `NoMemory`: an allocation failed.
pub fn explain_fault(
    alloc: Global,
    schema: &Schema,
    policy: &Policy,
) -> Result<Option<PolicyFault>, NoMemory>
    ensures { let s = schema_view schema.now in IfOk result (λ o. MatchOption o
        (Passes s policy.now) (IsPolicyFault s policy.now)) }
{
    let whole = expression_of(alloc, policy)?;
    let explained = explain_whole(alloc, schema, policy, &whole);
    drop_expression(whole);
    explained
}
