//! Functions and methods of extensions, on values.
ghost use Rattle.std.specs.Prelude.{◌≡◌, not, int_lt, int_le};
ghost use Rattle.values.specs.extensions.Network.{loopback_v4, loopback_v6, multicast_v4, multicast_v6};
ghost use Rattle.values.specs.extensions.Decided.{is_proved};
ghost use Rattle.values.specs.extensions.TextsDecided.{decimal_text_decided, network_text_decided, in_either_decided};
ghost use Rattle.values.specs.extensions.TextsDecided.{within_decided};
ghost use Rattle.evaluator.specs.inner.Computing.{decimal_read, network_read, is_v4, apply_unary_call};
ghost use Rattle.evaluator.specs.inner.Computing.{apply_binary_call, and_then, truth};

use crate::borrowed_or_owned::BorrowedOrOwned;
use crate::fault::EvalFault;
use crate::operands::{decimals_of, network_of, text_of};
use grammar_core::{BinaryCall, UnaryCall};
use values::{Decimal, IpNet, Value, decimal_is_unique, network_is_unique};

/// Returns the decimal that a string denotes, or `ExtensionError` if the string denotes none.
fn read_decimal(text: &str) -> Result<Value, EvalFault>
    ensures { result ≡ decimal_read (decimal_text_decided text.now) }
{
    decimal_is_unique();
    match Decimal::parse(text) {
        Some(number) => Ok(Value::decimal(number)),
        None => Err(EvalFault::ExtensionError),
    }
}

/// Returns the IP address that a string denotes, or `ExtensionError` if the string denotes none.
fn read_network(text: &str) -> Result<Value, EvalFault>
    ensures { result ≡ network_read (network_text_decided text.now) }
{
    network_is_unique();
    match IpNet::parse(text) {
        Some(network) => Ok(Value::ipaddr(network)),
        None => Err(EvalFault::ExtensionError),
    }
}

/// Returns whether the address is an IPv4 address.
fn is_ipv4(network: IpNet) -> bool
    ensures { result ≡ is_v4 network.version }
{
    network.is_ipv4()
}

/// Returns whether the address is an IPv6 address.
fn is_ipv6(network: IpNet) -> bool
    ensures { result ≡ not (is_v4 network.version) }
{
    network.is_ipv6()
}

/// Returns whether the whole range of the address is in a loopback range.
fn is_loopback(network: IpNet) -> bool
    ensures { result ≡ is_proved (in_either_decided network loopback_v4 loopback_v6) }
{
    network.is_loopback()
}

/// Returns whether the whole range of the address is in a multicast range.
fn is_multicast(network: IpNet) -> bool
    ensures { result ≡ is_proved (in_either_decided network multicast_v4 multicast_v6) }
{
    network.is_multicast()
}

/// Returns whether the range of `a` lies in that of `b`.
fn is_within(a: IpNet, b: IpNet) -> bool
    ensures { result ≡ is_proved (within_decided a b) }
{
    a.is_in_range(&b)
}

/// Returns whether the first of two decimals is less than the second, or the error of `numbers`.
fn less(numbers: Result<(Decimal, Decimal), EvalFault>) -> Result<Value, EvalFault>
    ensures { result ≡ and_then numbers (λ p. truth (int_lt p.0 p.1)) }
{
    let (a, b) = numbers?;
    Ok(Value::boolean(a.less_than(&b)))
}

/// Returns whether the first of two decimals is at most the second, or the error of `numbers`.
fn less_or_equal(numbers: Result<(Decimal, Decimal), EvalFault>) -> Result<Value, EvalFault>
    ensures { result ≡ and_then numbers (λ p. truth (int_le p.0 p.1)) }
{
    let (a, b) = numbers?;
    Ok(Value::boolean(a.less_or_equal(&b)))
}

/// Returns whether the first of two decimals is greater than the second, or the error of `numbers`.
fn greater(numbers: Result<(Decimal, Decimal), EvalFault>) -> Result<Value, EvalFault>
    ensures { result ≡ and_then numbers (λ p. truth (int_lt p.1 p.0)) }
{
    let (a, b) = numbers?;
    Ok(Value::boolean(b.less_than(&a)))
}

/// Returns whether the first of two decimals is at least the second, or the error of `numbers`.
fn greater_or_equal(numbers: Result<(Decimal, Decimal), EvalFault>) -> Result<Value, EvalFault>
    ensures { result ≡ and_then numbers (λ p. truth (int_le p.1 p.0)) }
{
    let (a, b) = numbers?;
    Ok(Value::boolean(b.less_or_equal(&a)))
}

/// Returns the result of a call with one operand on a value.
pub(crate) fn unary_call(called: UnaryCall, given: &BorrowedOrOwned<'_>) -> Result<Value, EvalFault>
    ensures { result ≡ apply_unary_call called given.now }
{
    match called {
        UnaryCall::Decimal => read_decimal(text_of(given)?.as_str()),
        UnaryCall::Ip => read_network(text_of(given)?.as_str()),
        UnaryCall::IsIpv4 => Ok(Value::boolean(is_ipv4(network_of(given)?))),
        UnaryCall::IsIpv6 => Ok(Value::boolean(is_ipv6(network_of(given)?))),
        UnaryCall::IsLoopback => Ok(Value::boolean(is_loopback(network_of(given)?))),
        UnaryCall::IsMulticast => Ok(Value::boolean(is_multicast(network_of(given)?))),
    }
}

/// Returns the result of a call with two operands on values.
pub(crate) fn binary_call(
    called: BinaryCall,
    a: &BorrowedOrOwned<'_>,
    b: &BorrowedOrOwned<'_>,
) -> Result<Value, EvalFault>
    ensures { result ≡ apply_binary_call called a.now b.now }
{
    match called {
        BinaryCall::LessThan => less(decimals_of(a, b)),
        BinaryCall::LessThanOrEqual => less_or_equal(decimals_of(a, b)),
        BinaryCall::GreaterThan => greater(decimals_of(a, b)),
        BinaryCall::GreaterThanOrEqual => greater_or_equal(decimals_of(a, b)),
        BinaryCall::IsInRange => Ok(Value::boolean(is_within(network_of(a)?, network_of(b)?))),
    }
}
