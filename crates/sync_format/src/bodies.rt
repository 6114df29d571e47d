//! The parsing of the bodies of updates: texts of policies and of entities.
ghost use Rattle.std.specs.Prelude.{◌≡◌, List, ℕ, IfOk, IfErr};
ghost use Rattle.values.specs.declared.entity_uid.EntityUid.{EntityUid};
ghost use Rattle.sync_format.specs.declared.bodies.BodyFault.{BodyFault};
ghost use Rattle.sync_format.specs.declared.bodies.BodyFault.TheVariants as fault;
ghost use Rattle.plain.specs.AllocationErrors.{OrNoMemory};

use json_words::Scratch;
use stamped_store::Readings;
use std::alloc::Global;
use thiserror::Error;
use values::EntityUid;

/// The error of a body's text.
#[derive(Clone, Copy, Debug, Error)]
pub enum BodyFault {
    /// Code 1: an allocation failed, or a count of references would overflow.
    #[error("message 1: out of memory")]
    NoMemory,
    /// Code 55: the text is rejected; holds the code of the inner error.
    #[error("message 55: body refused with code {0}")]
    Refused(u8),
    /// Code 56: the text is that of an entity with another uid.
    #[error("message 56: body of another entity")]
    OtherName,
}

impl From<plain::NoMemory> for BodyFault {
    ghost from_gives = { λ _ e. e ≡ fault.NoMemory };

    fn from(_error: plain::NoMemory) -> BodyFault {
        BodyFault::NoMemory
    }
}

/// A parser of bodies: texts of policies, by id, into `P`, and texts of entities, by uid, into `E`.
///
/// An implementation specifies what a text is parsed as, by the members of [`Readings`], and with which errors it is
/// rejected. If each text is parsed as one value or rejected with one error, and never both, then a message has one
/// outcome too, by [`crate::messages_have_one_outcome`].
pub trait Bodies<P, E>: Readings<P, E> {
    /// The errors of parsing a text as the policy with an id: a relation of the id, the text and the error.
    ghost refuses_policy: { Self → List ℕ → List ℕ → BodyFault → Type 0 };

    /// The errors of parsing a text as the entity with a uid: a relation of the uid, the text and the error.
    ghost refuses_entity: { Self → EntityUid → List ℕ → BodyFault → Type 0 };

    /// Parses the text of the policy with this id.
    ///
    /// # Errors
    ///
    /// - An error that `refuses_policy` relates to the id and the text.
    /// - `NoMemory`: an allocation failed; possible at any point.
    fn read_policy(&self, alloc: Global, id: &str, text: &str) -> Result<P, BodyFault>
        ensures read { IfOk result (Self.reads_policy self.now id.now text.now) }
        ensures refused { IfErr result (OrNoMemory BodyFault.NoMemory (refuses_policy self.now id.now text.now)) };

    /// Parses the text of the entity with this uid.
    ///
    /// `scratch` is memory that is reused from text to text; its content does not matter.
    ///
    /// # Errors
    ///
    /// - An error that `refuses_entity` relates to the uid and the text.
    /// - `NoMemory`: an allocation failed; possible at any point.
    fn read_entity(
        &self,
        alloc: Global,
        scratch: &mut Scratch,
        uid: &EntityUid,
        text: &str,
    ) -> Result<E, BodyFault>
        ensures read { IfOk result (Self.reads_entity self.now uid.now text.now) }
        ensures refused { IfErr result (OrNoMemory BodyFault.NoMemory (refuses_entity self.now uid.now text.now)) };
}
