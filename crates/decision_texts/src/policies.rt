//! The policies of a file, each with its name.
ghost use Rattle.std.specs.Prelude.{◌≡◌, IfOk, IfErr, MatchResult, Ok, Err, map, string_bytes};
ghost use Rattle.answer_lines.specs.policy_grammar.declared.fault.ReadFault.TheVariants as ReadFault;
ghost use Rattle.plain.specs.AllocationErrors.{OrNoMemory};
ghost use Rattle.answer_lines.specs.Refusals.{no_memory};
ghost use Rattle.decision_texts.specs.Decisions.{ArePoliciesOf, ArePoliciesRefused, IsFileFault, refusal_by};
ghost use Rattle.decision_texts.specs.Decisions.{AreAdmitted, AreNotAdmitted};

use crate::setting::Setting;
use answer_lines::{MOST_FILE_BYTES, Place, Policy, ReadFault, Refusal, parse_policies};
use std::alloc::Global;

/// Returns the reported error for an error of the policies' text (10 to 19, or 1 for `NoMemory`), at the same byte
/// offset.
fn refusal_by(fault: ReadFault) -> Refusal
    ensures { result ≡ refusal_by fault }
{
    Refusal {
        code: fault.code(),
        place: fault.place().map(Place::Byte),
        within: None,
    }
}

/// Returns the policies of a file with their names, or its error. A file that is too long is rejected before it is
/// checked to be UTF-8.
fn read_policies(alloc: Global, bytes: &[u8]) -> Result<Vec<(String, Policy)>, ReadFault>
    ensures read { IfOk result
        (λ named. ArePoliciesOf bytes.now (map (λ p. string_bytes p.0) named.items) (map (λ p. p.1) named.items)) }
    ensures refused { IfErr result (OrNoMemory ReadFault.NoMemory (IsFileFault bytes.now)) }
{
    if bytes.len() > MOST_FILE_BYTES {
        return Err(ReadFault::TooLong);
    }
    match str::from_utf8(bytes) {
        Ok(text) => parse_policies(alloc, text),
        Err(_) => Err(ReadFault::BadToken(0)),
    }
}

/// Returns the policies of a file with their names, in the file's order.
///
/// # Errors
///
/// - 10 to 19, at a byte offset: the error of the file (docs/codes.md, "Policies").
/// - `NoMemory` (1): an allocation failed; possible at any point.
pub fn policies_of_file(alloc: Global, bytes: &[u8]) -> Result<Vec<(String, Policy)>, Refusal>
    ensures read { IfOk result
        (λ named. ArePoliciesOf bytes.now (map (λ p. string_bytes p.0) named.items) (map (λ p. p.1) named.items)) }
    ensures refused { IfErr result (λ r. (r ≡ no_memory → ⊥) → ArePoliciesRefused bytes.now r) }
{
    match read_policies(alloc, bytes) {
        Ok(named) => Ok(named),
        Err(fault) => Err(refusal_by(fault)),
    }
}

/// Returns `policies`, or the error in `judged`, the result of checking them.
fn where_admitted<P: Drop>(policies: P, judged: Result<(), Refusal>) -> Result<P, Refusal>
    ensures { MatchResult judged (λ _. result ≡ Ok policies) (λ r. result ≡ Err r) }
{
    match judged {
        Ok(()) => Ok(policies),
        Err(refusal) => Err(refusal),
    }
}

/// Returns the policies of a file with their names, in the file's order, if the setting admits them. The errors are
/// those of [`policies_of_file`], and then the setting's.
pub(crate) fn admitted_policies<S: Setting>(
    alloc: Global,
    setting: &S,
    bytes: &[u8],
) -> Result<Vec<(String, Policy)>, Refusal>
    ensures admitted { IfOk result (λ named. AreAdmitted (S.reading setting.now) bytes.now
        (map (λ p. string_bytes p.0) named.items) (map (λ p. p.1) named.items)) }
    ensures refused { IfErr result (OrNoMemory no_memory (AreNotAdmitted (S.reading setting.now) bytes.now)) }
{
    match policies_of_file(alloc, bytes) {
        Ok(policies) => {
            let judged = setting.check_policies(alloc, &policies);
            where_admitted(policies, judged)
        }
        Err(refusal) => Err(refusal),
    }
}
