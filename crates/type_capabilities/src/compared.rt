//! The order of expressions.
ghost use Rattle.std.specs.Prelude.{◌≡◌, map, length};
ghost use Rattle.std.specs.Ordering.{ordering_then, nat_cmp};
ghost use Rattle.type_capabilities.specs.Order.{kind_of, expr_cmp, each_cmp, names_cmp};

use crate::leaves::{
    binary_call_rank, binary_rank, compare_literals, compare_unary, unary_call_rank, variable_rank,
};
use grammar_core::{Expr, Named};
use plain::{Items, Shared};
use std::cmp::Ordering;

/// Returns the rank of an expression's kind.
fn kind(expr: &Expr) -> u8
    ensures { result ≡ kind_of expr.now }
{
    match expr {
        Expr::Literal(_) => 0,
        Expr::Variable(_) => 1,
        Expr::If(_, _, _) => 2,
        Expr::And(_, _) => 3,
        Expr::Or(_, _) => 4,
        Expr::Unary(_, _) => 5,
        Expr::Binary(_, _, _) => 6,
        Expr::Field(_, _) => 7,
        Expr::Has(_, _) => 8,
        Expr::Set(_) => 9,
        Expr::Record(_) => 10,
        Expr::UnaryCall(_, _) => 11,
        Expr::BinaryCall(_, _, _) => 12,
    }
}

/// Compares two expressions: by kind, then by their content other than operands, then by the operands from the left.
/// Does not allocate. Visits no operand after the first difference.
#[cycle(compare)]
#[tactic(auto, using(crate::proofs::Records::record_is))]
pub fn compare(one: &Expr, other: &Expr) -> Ordering
    ensures { result ≡ expr_cmp one.now other.now }
{
    match (one, other) {
        (Expr::Literal(l), Expr::Literal(m)) => compare_literals(l, m),
        (Expr::Variable(x), Expr::Variable(y)) => variable_rank(*x).cmp(&variable_rank(*y)),
        (Expr::If(a, b, c), Expr::If(d, e, f)) => {
            then_by(c, f, then_by(b, e, then_by(a, d, Ordering::Equal)))
        }
        (Expr::And(a, b), Expr::And(c, d)) => then_by(b, d, then_by(a, c, Ordering::Equal)),
        (Expr::Or(a, b), Expr::Or(c, d)) => then_by(b, d, then_by(a, c, Ordering::Equal)),
        (Expr::Unary(o, a), Expr::Unary(p, b)) => then_by(a, b, compare_unary(o, p)),
        (Expr::Binary(o, a, b), Expr::Binary(p, c, d)) => {
            then_by(b, d, then_by(a, c, binary_rank(*o).cmp(&binary_rank(*p))))
        }
        (Expr::Field(a, k), Expr::Field(b, l)) => then_by(a, b, k.cmp(l)),
        (Expr::Has(a, k), Expr::Has(b, l)) => then_by(a, b, k.cmp(l)),
        (Expr::Set(xs), Expr::Set(ys)) => then_by_each(xs, ys, xs.len().cmp(&ys.len())),
        (Expr::Record(xs), Expr::Record(ys)) => then_by_values(xs, ys, compare_names(xs, ys)),
        (Expr::UnaryCall(o, a), Expr::UnaryCall(p, b)) => {
            then_by(a, b, unary_call_rank(*o).cmp(&unary_call_rank(*p)))
        }
        (Expr::BinaryCall(o, a, b), Expr::BinaryCall(p, c, d)) => {
            then_by(
                b,
                d,
                then_by(a, c, binary_call_rank(*o).cmp(&binary_call_rank(*p))),
            )
        }
        (a, b) => kind(a).cmp(&kind(b)),
    }
}

/// Returns `first` if it is not `Equal`, else the order of two operands.
#[cycle(compare)]
fn then_by(one: &Shared<Expr>, other: &Shared<Expr>, first: Ordering) -> Ordering
    ensures { result ≡ ordering_then first (expr_cmp one.now other.now) }
{
    match first {
        Ordering::Equal => compare(one, other),
        Ordering::Less => Ordering::Less,
        Ordering::Greater => Ordering::Greater,
    }
}

/// Returns `first` if it is not `Equal`, else the order of two lists of operands, compared index by index up to the end
/// of the shorter list.
#[cycle(compare)]
#[tactic(auto, using(crate::proofs::Lists::exprs_at, crate::proofs::Lists::exprs_past, crate::proofs::Lists::exprs_over))]
fn then_by_each(ones: &Items<Expr>, twos: &Items<Expr>, first: Ordering) -> Ordering
    ensures { result ≡ ordering_then first (each_cmp (map expr_cmp ones.now) twos.now) }
{
    if first.is_ne() {
        return first;
    }
    let others = twos.as_slice();
    for (at, one) in ones.as_slice().iter().enumerate() {
        if at >= others.len() {
            return Ordering::Equal;
        }
        let order = compare(one, &others[at]);
        if order.is_ne() {
            return order;
        }
    }
    Ordering::Equal
}

/// Compares the names of two records: by their number, then name by name.
fn compare_names(ones: &Items<Named<Expr>>, twos: &Items<Named<Expr>>) -> Ordering
    ensures { result ≡ ordering_then (nat_cmp (length ones.now) (length twos.now)) (names_cmp ones.now twos.now) }
{
    let counts = ones.len().cmp(&twos.len());
    if counts.is_ne() {
        return counts;
    }
    let others = twos.as_slice();
    for (at, one) in ones.as_slice().iter().enumerate() {
        let order = one.name.cmp(&others[at].name);
        if order.is_ne() {
            return order;
        }
    }
    Ordering::Equal
}

/// Returns `first` if it is not `Equal`, else the order of the values of two lists of fields, compared index by index
/// up to the end of the shorter list.
#[cycle(compare)]
#[tactic(auto, using(crate::proofs::Lists::values_at, crate::proofs::Lists::values_past, crate::proofs::Lists::values_over))]
fn then_by_values(ones: &Items<Named<Expr>>, twos: &Items<Named<Expr>>, first: Ordering) -> Ordering
    ensures { result ≡ ordering_then first
        (each_cmp (map (λ f. expr_cmp f.value) ones.now) (map (λ f. f.value) twos.now)) }
{
    if first.is_ne() {
        return first;
    }
    let others = twos.as_slice();
    for (at, one) in ones.as_slice().iter().enumerate() {
        if at >= others.len() {
            return Ordering::Equal;
        }
        let order = compare(&one.value, &others[at].value);
        if order.is_ne() {
            return order;
        }
    }
    Ordering::Equal
}
