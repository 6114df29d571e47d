//! The values of literals and of variables. They are computed outside the recursion of the evaluator, so that its stack
//! frames need no space for them.
ghost use Rattle.std.specs.Prelude.{◌≡◌, Ok};
ghost use Rattle.evaluator.specs.Evaluation.{literal_value, variable_value};

use crate::borrowed_or_owned::{BorrowedOrOwned, Ownership};
use crate::eval_env::EvalEnv;
use crate::fault::EvalFault;
use grammar_core::{Literal, Variable};
use values::ValueRef;

/// Returns the value of a literal, borrowed.
#[inline(never)]
pub(crate) fn literal_of(literal: &Literal) -> Result<BorrowedOrOwned<'_>, EvalFault>
    ensures { result ≡ Ok (literal_value literal.now) }
{
    let value = match literal {
        Literal::Boolean(truth) => ValueRef::boolean(*truth),
        Literal::Long(number) => ValueRef::long(*number),
        Literal::Text(content) => ValueRef::text(content),
        Literal::Entity(uid) => ValueRef::entity(uid),
    };
    Ok(BorrowedOrOwned {
        ownership: Ownership::Borrowed(value),
    })
}

/// Returns the value of a variable, borrowed.
#[inline(never)]
pub(crate) fn variable_of<L: EvalEnv>(
    variable: Variable,
    env: &L,
) -> Result<BorrowedOrOwned<'_>, EvalFault>
    ensures { result ≡ Ok (variable_value variable (L.request_of env.now)) }
{
    let request = env.request();
    let value = match variable {
        Variable::Principal => ValueRef::entity(&request.principal),
        Variable::Action => ValueRef::entity(&request.action),
        Variable::Resource => ValueRef::entity(&request.resource),
        Variable::Context => ValueRef::record(&request.context),
    };
    Ok(BorrowedOrOwned {
        ownership: Ownership::Borrowed(value),
    })
}
