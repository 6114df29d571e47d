//! Core expressions of calls of functions and methods. That of a rejected call is a placeholder, `no_call`.
ghost use Rattle.std.specs.Prelude.{◌≡◌, IfOk, Some};
ghost use Rattle.grammar_desugaring.specs.Core as spec;
ghost use Rattle.grammar_core.specs.declared.operator.Method.TheVariants as method;
ghost use Rattle.grammar_desugaring.specs.inner.Giving.{Gave};

use grammar_core::{Expr, Literal, Method, UnaryCall};
use plain::{Items, NoMemory, pair_with};
use std::alloc::Global;

/// Returns the placeholder for a call that is rejected, and drops its parts.
fn no_call<T: Drop, U: Drop>(_part: T, _other: U) -> Expr
    ensures { result ≡ spec.no_call }
{
    Expr::Literal(Literal::Boolean(false))
}

/// Returns the argument, if there is exactly one.
fn single(arguments: Items<Expr>) -> Option<Expr>
    ensures { result ≡ spec.single_of arguments }
{
    let mut rest = arguments.into_vec();
    if rest.len() == 1 { rest.pop() } else { None }
}

/// Returns a call of a function; or the placeholder, if the function is unknown or the number of arguments is not one;
/// or the error of `arguments`.
pub(crate) fn call(
    alloc: Global,
    function: Option<UnaryCall>,
    arguments: Result<Items<Expr>, NoMemory>,
) -> Result<Expr, NoMemory>
    ensures { IfOk result (λ e. Gave arguments (λ es. e ≡ spec.called function es)) }
{
    let arguments = arguments?;
    let Some(called) = function else {
        return Ok(no_call(arguments, ()));
    };
    match single(arguments) {
        Some(argument) => Expr::unary_call(alloc, called, argument),
        None => Ok(no_call((), ())),
    }
}

/// Returns a call of a method with one argument, or the placeholder if the method takes no argument.
fn call_with(
    alloc: Global,
    method: Method,
    receiver: Expr,
    argument: Expr,
) -> Result<Expr, NoMemory>
    ensures { IfOk result (λ e. e ≡ spec.called_with method receiver argument) }
{
    match method {
        Method::Alone(_) => Ok(no_call(receiver, argument)),
        Method::Operator(operator) => Expr::binary(alloc, operator, receiver, argument),
        Method::WithArgument(called) => Expr::binary_call(alloc, called, receiver, argument),
    }
}

/// Returns a call of a method that takes no arguments, or the placeholder if `arguments` is not empty.
fn call_alone(
    alloc: Global,
    called: UnaryCall,
    receiver: Expr,
    arguments: Items<Expr>,
) -> Result<Expr, NoMemory>
    ensures { IfOk result (λ e. e ≡ spec.method_called (Some (method.Alone called)) receiver arguments) }
{
    if arguments.is_empty() {
        Expr::unary_call(alloc, called, receiver)
    } else {
        Ok(no_call(receiver, arguments))
    }
}

/// Returns a call of a method; or the placeholder, if the method is unknown or takes another number of arguments; or
/// the error of `arguments`.
pub(crate) fn call_with_row(
    alloc: Global,
    method: Option<Method>,
    receiver: Expr,
    arguments: Result<Items<Expr>, NoMemory>,
) -> Result<Expr, NoMemory>
    ensures { IfOk result (λ e. Gave arguments (λ es. e ≡ spec.method_called method receiver es)) }
{
    let (receiver, arguments) = pair_with(receiver, arguments)?;
    match method {
        None => Ok(no_call(receiver, arguments)),
        Some(Method::Alone(called)) => call_alone(alloc, called, receiver, arguments),
        Some(other) => match single(arguments) {
            Some(argument) => call_with(alloc, other, receiver, argument),
            None => Ok(no_call(receiver, ())),
        },
    }
}
