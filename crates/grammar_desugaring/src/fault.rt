//! Errors of desugaring.
ghost use Rattle.std.specs.Prelude.{◌≡◌};
ghost use Rattle.grammar_desugaring.specs.ReportedErrors as spec;

use thiserror::Error;

/// An error of desugaring a tree, or of a name that repeats an earlier one. Each has a byte offset, counted from 0.
#[derive(Clone, Copy, Debug, Error)]
pub enum DesugarFault {
    /// The number at this offset is outside signed 64 bits.
    #[error("policy 12: number outside signed 64 bits at byte {0}")]
    NumberRange(usize),
    /// The function or method that is named at this offset is unknown.
    #[error("policy 13: unknown function or method at byte {0}")]
    UnknownCall(usize),
    /// The function or method that is named at this offset takes another number of arguments.
    #[error("policy 14: wrong number of arguments at byte {0}")]
    Arity(usize),
    /// The name at this offset also occurs earlier: a key of a record, an annotation of a policy, or a policy's name in
    /// a file.
    #[error("policy 15: repeated key at byte {0}")]
    RepeatedKey(usize),
}

impl DesugarFault {
    /// Returns the byte offset of the error.
    fn at(self) -> usize
        ensures { result ≡ spec.at self }
    {
        match self {
            DesugarFault::NumberRange(at)
            | DesugarFault::UnknownCall(at)
            | DesugarFault::Arity(at)
            | DesugarFault::RepeatedKey(at) => at,
        }
    }
}

/// Returns the earlier of the errors `one` and `other` that are present, `one` if both are at one offset, or `None` if
/// neither is present.
pub fn earlier_of(one: Option<DesugarFault>, other: Option<DesugarFault>) -> Option<DesugarFault>
    ensures { result ≡ spec.earlier_of one other }
{
    match (one, other) {
        (Some(first), Some(second)) if second.at() < first.at() => Some(second),
        (None, second) => second,
        (first, _) => first,
    }
}
