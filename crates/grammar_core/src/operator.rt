//! Operators, functions and methods (Cedar reference guide, "Operators and functions").
ghost use Rattle.std.specs.Prelude.{◌≡◌};
ghost use Rattle.grammar_core.specs.Operators.{function_of, method_of, takes};

use crate::pattern::Pattern;
use values::TypeName;

/// An operator with one operand.
#[derive(Drop)]
pub enum Unary {
    /// `!`.
    Not,
    /// `-`.
    Negate,
    /// `like`: whether a string matches the pattern.
    Like(Pattern),
    /// `is`: whether an entity is of the type.
    Is(TypeName),
}

/// An operator with two operands.
#[derive(Clone, Copy)]
pub enum Binary {
    /// `==`.
    Equal,
    /// `in`: whether the left operand, an entity, equals or is a descendant of the right operand, an entity, or of some
    /// member of the right operand, a set.
    In,
    /// `<`.
    Less,
    /// `<=`.
    LessOrEqual,
    /// `+`.
    Add,
    /// `-`.
    Subtract,
    /// `*`.
    Multiply,
    /// `contains`: whether the left operand, a set, contains the right one.
    Contains,
    /// `containsAll`: whether the left operand, a set, contains all members of the right one.
    ContainsAll,
    /// `containsAny`: whether the left operand, a set, contains some member of the right one.
    ContainsAny,
}

/// A function or a method of an extension, with one operand. A method's receiver is its operand.
#[derive(Clone, Copy)]
pub enum UnaryCall {
    /// `ip`: parses an IP address.
    Ip,
    /// `decimal`: parses a decimal.
    Decimal,
    /// `isIpv4`.
    IsIpv4,
    /// `isIpv6`.
    IsIpv6,
    /// `isLoopback`.
    IsLoopback,
    /// `isMulticast`.
    IsMulticast,
}

/// A method of an extension, with two operands: its receiver and its argument.
#[derive(Clone, Copy)]
pub enum BinaryCall {
    /// `lessThan`, of decimals.
    LessThan,
    /// `lessThanOrEqual`, of decimals.
    LessThanOrEqual,
    /// `greaterThan`, of decimals.
    GreaterThan,
    /// `greaterThanOrEqual`, of decimals.
    GreaterThanOrEqual,
    /// `isInRange`, of addresses.
    IsInRange,
}

/// A method: the operator or the call that its name means.
#[derive(Clone, Copy)]
pub enum Method {
    /// A call without arguments: its only operand is the receiver.
    Alone(UnaryCall),
    /// An operator with two operands: the receiver and one argument.
    Operator(Binary),
    /// A call with two operands: the receiver and one argument.
    WithArgument(BinaryCall),
}

/// Returns the function that `name` names, if it names one.
pub fn function_named(name: &str) -> Option<UnaryCall>
    ensures { result ≡ function_of name.now }
{
    match name {
        "ip" => Some(UnaryCall::Ip),
        "decimal" => Some(UnaryCall::Decimal),
        _ => None,
    }
}

/// Returns the method that `name` names, if it names one.
pub fn method_named(name: &str) -> Option<Method>
    ensures { result ≡ method_of name.now }
{
    match name {
        "contains" => Some(Method::Operator(Binary::Contains)),
        "containsAll" => Some(Method::Operator(Binary::ContainsAll)),
        "containsAny" => Some(Method::Operator(Binary::ContainsAny)),
        "lessThan" => Some(Method::WithArgument(BinaryCall::LessThan)),
        "lessThanOrEqual" => Some(Method::WithArgument(BinaryCall::LessThanOrEqual)),
        "greaterThan" => Some(Method::WithArgument(BinaryCall::GreaterThan)),
        "greaterThanOrEqual" => Some(Method::WithArgument(BinaryCall::GreaterThanOrEqual)),
        "isInRange" => Some(Method::WithArgument(BinaryCall::IsInRange)),
        "isIpv4" => Some(Method::Alone(UnaryCall::IsIpv4)),
        "isIpv6" => Some(Method::Alone(UnaryCall::IsIpv6)),
        "isLoopback" => Some(Method::Alone(UnaryCall::IsLoopback)),
        "isMulticast" => Some(Method::Alone(UnaryCall::IsMulticast)),
        _ => None,
    }
}

impl Method {
    /// Returns the number of arguments that the method takes, without its receiver.
    pub fn takes(self) -> usize
        ensures { result ≡ takes self }
    {
        match self {
            Method::Alone(_) => 0,
            Method::Operator(_) | Method::WithArgument(_) => 1,
        }
    }
}
