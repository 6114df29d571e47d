//! The first environment in which a policy has an error, and what the error blames there.
ghost use Rattle.std.specs.Prelude.{◌≡◌, IfOk, MatchOption, All};
ghost use Rattle.policy_grammar.specs.PolicyExpression.{expression_of};
ghost use Rattle.type_checker.specs.schema.Views.{schema_view};
ghost use Rattle.type_checker.specs.Views.{typing_environment};
ghost use Rattle.validator.specs.Passing.{environments_of, HasBooleanType};
ghost use Rattle.fault_places.specs.FirstTypingError.{IsTypeBlame};
ghost use Rattle.fault_places.specs.inner.Judging.{IsBlamedIn};

use crate::descending::{BlamedForm, descend};
use crate::judging::{Judgement, judge};
use grammar_core::Expr;
use plain::NoMemory;
use policy_grammar::Policy;
use std::alloc::Global;
use type_checker::{Schema, TypingEnvironment, drop_types};
use validator::TypeFault;

/// The first typing error of a policy, and what it blames.
#[derive(Drop)]
pub struct TypeBlame<'a> {
    /// The error, as [`check`](validator::check) returns it.
    pub fault: TypeFault,
    /// The index, from 0, of the first environment of the schema in which the policy has an error.
    pub environment: usize,
    /// What the error blames in this environment.
    pub place: BlamedForm<'a>,
}

/// Returns the error of typing an expression in the environment `env`, which has the index `at`, with what the error
/// blames there, or `None` if the expression has a type.
fn blame_at<'a>(
    alloc: Global,
    env: TypingEnvironment<'a>,
    at: usize,
    whole: &'a Expr,
) -> Result<Option<TypeBlame<'a>>, NoMemory>
    ensures { IfOk result (IsBlamedIn (typing_environment env.entry) at whole.entry.now) }
{
    let mut known = Vec::new(alloc);
    let mut types = Vec::new(alloc);
    match judge(alloc, env, &mut known, &mut types, whole) {
        Err(error) => {
            drop_types(types);
            Err(error)
        }
        Ok(Judgement::Typed(_)) => {
            drop_types(types);
            Ok(None)
        }
        Ok(Judgement::Faulty(fault)) => {
            let mut path = Vec::new(alloc);
            match descend(alloc, env, &mut known, &mut path, &mut types, whole) {
                Err(error) => {
                    drop_types(types);
                    Err(error)
                }
                Ok(form) => Ok(Some(TypeBlame {
                    fault,
                    environment: at,
                    place: BlamedForm { path, form, types },
                })),
            }
        }
    }
}

/// Returns what the first typing error of a policy blames, in the first environment that has one, or `None` if the
/// policy has a boolean type in each environment.
///
/// `whole` is the policy's expression, as [`expression_of`](validator::expression_of) builds it: paths begin at its
/// root.
///
/// Types the policy once in each environment up to the first with an error. In this environment, parts of the policy
/// are typed once more for each level of the path to the blamed expression.
///
/// # Errors
///
/// - `NoMemory`: an allocation failed.
pub fn blame_type<'a>(
    alloc: Global,
    schema: &'a Schema,
    policy: &Policy,
    whole: &'a Expr,
) -> Result<Option<TypeBlame<'a>>, NoMemory>
    requires { whole.now ≡ expression_of policy.now }
    ensures { let s = schema_view schema.entry.now in IfOk result (λ blame. MatchOption blame
        (All (HasBooleanType (expression_of policy.now)) (environments_of s))
        (IsTypeBlame s (expression_of policy.now))) }
{
    let environments = schema.environments();
    for (at, environment) in environments.iter().enumerate() {
        let env = TypingEnvironment::new(schema, environment);
        match blame_at(alloc, env, at, whole) {
            Err(error) => return Err(error),
            Ok(Some(blame)) => return Ok(Some(blame)),
            Ok(None) => {}
        }
    }
    Ok(None)
}
