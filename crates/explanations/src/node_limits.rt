//! A limit on the number of nodes of an expression, tested in time that the limit bounds.
ghost use Rattle.std.specs.Prelude.{◌≡◌, ◌+◌, ◌-◌, map, nat_le};
ghost use Rattle.grammar_core.specs.Size.{node_count, total, values_of};
ghost use Rattle.explanations.specs.inner.NodeLimits.{named_count};

use grammar_core::{Expr, Named};

/// Returns whether an expression has at most `most` nodes.
///
/// O(`most`), however many nodes there are. Does not allocate. The stack grows with the height of the expression.
pub(crate) fn has_at_most(expr: &Expr, most: u32) -> bool
    ensures { result ≡ nat_le (node_count expr.now) most }
{
    nodes_left(expr, u64::from(most) + 1) > 0
}

/// Returns what the nodes of an expression leave of the room for `room` nodes; 0 if they need all of it, or more.
///
/// Returns at the first node without room.
#[cycle(nodes_left)]
fn nodes_left(expr: &Expr, room: u64) -> u64
    ensures { result ≡ room - node_count expr.now }
{
    if room == 0 {
        return 0;
    }
    let rest = room - 1;
    match expr {
        Expr::Literal(_) | Expr::Variable(_) => rest,
        Expr::If(test, consequent, alternative) => {
            let rest = nodes_left(test, rest);
            let rest = nodes_left(consequent, rest);
            nodes_left(alternative, rest)
        }
        Expr::And(left, right)
        | Expr::Or(left, right)
        | Expr::Binary(_, left, right)
        | Expr::BinaryCall(_, left, right) => {
            let rest = nodes_left(left, rest);
            nodes_left(right, rest)
        }
        Expr::Unary(_, operand)
        | Expr::Field(operand, _)
        | Expr::Has(operand, _)
        | Expr::UnaryCall(_, operand) => nodes_left(operand, rest),
        Expr::Set(members) => members_left(members.as_slice(), rest),
        Expr::Record(fields) => fields_left(fields.as_slice(), rest),
    }
}

/// Returns what the nodes of several expressions leave of the room for `room` nodes.
#[cycle(nodes_left)]
fn members_left(members: &[Expr], room: u64) -> u64
    ensures { result ≡ room - total (map node_count members.now) }
{
    let mut rest = room;
    for member in members {
        if rest == 0 {
            return 0;
        }
        rest = nodes_left(member, rest);
    }
    rest
}

/// Returns what the nodes of the values of a record's fields leave of the room for `room` nodes.
#[cycle(nodes_left)]
fn fields_left(fields: &[Named<Expr>], room: u64) -> u64
    ensures { result ≡ room - total (values_of (map named_count fields.now)) }
{
    let mut rest = room;
    for field in fields {
        if rest == 0 {
            return 0;
        }
        rest = nodes_left(&field.value, rest);
    }
    rest
}
