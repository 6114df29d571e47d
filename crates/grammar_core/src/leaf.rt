//! Expressions without operands: literals and variables.
use plain::Text;
use values::EntityUid;

/// A literal value of a policy (Cedar reference guide, "Supported data types").
#[derive(Drop)]
pub enum Literal {
    /// `true` or `false`.
    Boolean(bool),
    /// A signed 64-bit integer.
    Long(i64),
    /// The value of a string.
    Text(Text),
    /// The entity with this uid.
    Entity(EntityUid),
}

/// A part of the request (Cedar reference guide, "Grammar": `VAR`).
#[derive(Clone, Copy)]
pub enum Variable {
    /// The principal of the request.
    Principal,
    /// The action of the request.
    Action,
    /// The resource of the request.
    Resource,
    /// The context of the request, a record.
    Context,
}
