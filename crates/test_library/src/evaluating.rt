//! Tests of evaluation, with a request and a store passed as two arguments or as one environment.
use crate::shared::{holds, uid_of};
use entities::{Entities, EntityStore, NoActions};
use evaluator::{
    BorrowedOrOwned, EvalFault, Lookup, RequestEnv, evaluate, evaluate_in, evaluate_test,
};
use plain::{NoMemory, Shared, both};
use policy_grammar::{Binary, Expr, Literal};
use std::alloc::Global;
use std::process::Abort;
use values::{Record, Request};

fn number(alloc: Global, number: i64) -> Result<Shared<Expr>, NoMemory> {
    Shared::new(alloc, Expr::Literal(Literal::Long(number)))
}

// Returns the expression `1 < 2`.
fn comparison(alloc: Global) -> Result<Expr, NoMemory> {
    let (one, two) = both(number(alloc, 1), number(alloc, 2))?;
    Ok(Expr::Binary(Binary::Less, one, two))
}

fn request(alloc: Global) -> Result<Request, NoMemory> {
    let (principal, (action, resource)) = both(
        uid_of(alloc, "User", "a"),
        both(
            uid_of(alloc, "Action", "view"),
            uid_of(alloc, "Document", "x"),
        ),
    )?;
    Ok(Request {
        principal,
        action,
        resource,
        context: Record::new(alloc),
    })
}

fn is_true(given: &Result<BorrowedOrOwned<'_>, EvalFault>) -> bool {
    match given {
        Ok(value) => value.as_boolean() == Some(true),
        Err(_) => false,
    }
}

// Returns whether a test gave true.
fn is_true_test(told: &Result<bool, EvalFault>) -> bool {
    match told {
        Ok(truth) => *truth,
        Err(_) => false,
    }
}

// Fails the test unless an expression evaluates to true by each of the three calls.
fn evaluates<L: Lookup>(rt: &impl Abort, alloc: Global, expr: &Expr, request: &Request, store: &L) {
    let given = evaluate(alloc, expr, request, store);
    holds(rt, is_true(&given), "a request and a store");
    let told = evaluate_test(alloc, expr, request, store);
    holds(rt, is_true_test(&told), "the same as a test");
    let question = RequestEnv { request, store };
    let given = evaluate_in(alloc, expr, &question);
    holds(rt, is_true(&given), "both as one question");
}

#[test]
fn expressions_are_evaluated(rt: HostRuntime) -> Result<(), NoMemory> {
    let alloc = rt.alloc();
    let (expr, request) = both(comparison(alloc), request(alloc))?;
    let store = EntityStore::new(alloc);
    let world = Entities::new(alloc, &store, NoActions);
    evaluates(&rt, alloc, &expr, &request, &world);
    Ok(())
}
