//! Functions that return the content of an operand that must be of a certain kind. The error is `TypeError` if the
//! value is of another kind.
ghost use Rattle.std.specs.Prelude.{◌≡◌, MatchResult, Ok, Err};
ghost use Rattle.evaluator.specs.Outcomes.{boolean_in, long_in, text_in, entity_uid_in, members_in};
ghost use Rattle.evaluator.specs.Outcomes.{decimal_in, network_in};
ghost use Rattle.evaluator.specs.inner.Computing.{demanded, two_demanded};

use crate::borrowed_or_owned::BorrowedOrOwned;
use crate::fault::EvalFault;
use plain::Text;
use values::{BorrowedKind, Decimal, EntityUid, IpNet, Set};

/// Returns the value as a boolean.
pub(crate) fn boolean_of(given: &BorrowedOrOwned<'_>) -> Result<bool, EvalFault>
    ensures { result ≡ demanded (boolean_in given.now) }
{
    match given.kind() {
        BorrowedKind::Boolean(truth) => Ok(truth),
        _ => Err(EvalFault::TypeError),
    }
}

/// Returns the value as an integer.
pub(crate) fn long_of(given: &BorrowedOrOwned<'_>) -> Result<i64, EvalFault>
    ensures { result ≡ demanded (long_in given.now) }
{
    match given.kind() {
        BorrowedKind::Long(number) => Ok(number),
        _ => Err(EvalFault::TypeError),
    }
}

/// Returns the value as a string.
pub(crate) fn text_of<'g>(given: &'g BorrowedOrOwned<'_>) -> Result<&'g Text, EvalFault>
    ensures { MatchResult result (λ t. demanded (text_in given.now) ≡ Ok t.now)
        (λ e. demanded (text_in given.now) ≡ Err e) }
{
    match given.kind() {
        BorrowedKind::Text(content) => Ok(content),
        _ => Err(EvalFault::TypeError),
    }
}

/// Returns the value as an entity.
pub(crate) fn entity_of<'g>(given: &'g BorrowedOrOwned<'_>) -> Result<&'g EntityUid, EvalFault>
    ensures { MatchResult result (λ u. demanded (entity_uid_in given.now) ≡ Ok u.now)
        (λ e. demanded (entity_uid_in given.now) ≡ Err e) }
{
    match given.kind() {
        BorrowedKind::Entity(uid) => Ok(uid),
        _ => Err(EvalFault::TypeError),
    }
}

/// Returns the value as a set.
#[tactic(auto, using(crate::proofs::Conversions::conversions))]
pub(crate) fn set_of<'g>(given: &'g BorrowedOrOwned<'_>) -> Result<&'g Set, EvalFault>
    ensures { MatchResult result (λ s. demanded (members_in given.now) ≡ Ok s.now)
        (λ e. demanded (members_in given.now) ≡ Err e) }
{
    match given.kind() {
        BorrowedKind::Set(members) => Ok(members),
        _ => Err(EvalFault::TypeError),
    }
}

/// Returns the value as a decimal.
pub(crate) fn decimal_of(given: &BorrowedOrOwned<'_>) -> Result<Decimal, EvalFault>
    ensures { result ≡ demanded (decimal_in given.now) }
{
    match given.kind() {
        BorrowedKind::Decimal(number) => Ok(number),
        _ => Err(EvalFault::TypeError),
    }
}

/// Returns the value as an IP address.
pub(crate) fn network_of(given: &BorrowedOrOwned<'_>) -> Result<IpNet, EvalFault>
    ensures { result ≡ demanded (network_in given.now) }
{
    match given.kind() {
        BorrowedKind::IpAddr(network) => Ok(network),
        _ => Err(EvalFault::TypeError),
    }
}

/// Returns both values as integers, so that a caller handles one error instead of two.
pub(crate) fn longs_of(
    a: &BorrowedOrOwned<'_>,
    b: &BorrowedOrOwned<'_>,
) -> Result<(i64, i64), EvalFault>
    ensures { result ≡ two_demanded (long_in a.now) (long_in b.now) }
{
    let first = long_of(a)?;
    Ok((first, long_of(b)?))
}

/// Returns both values as decimals, so that a caller handles one error instead of two.
pub(crate) fn decimals_of(
    a: &BorrowedOrOwned<'_>,
    b: &BorrowedOrOwned<'_>,
) -> Result<(Decimal, Decimal), EvalFault>
    ensures { result ≡ two_demanded (decimal_in a.now) (decimal_in b.now) }
{
    let first = decimal_of(a)?;
    Ok((first, decimal_of(b)?))
}
