//! The errors of messages.
ghost use Rattle.std.specs.Prelude.{◌≡◌};
ghost use Rattle.sync_format.specs.declared.fault.MessageFault.TheVariants.{NoMemory};
ghost use Rattle.sync_format.specs.Faults.{code_of, place_of, within_of};

use std::alloc::AllocFailed;
use thiserror::Error;

/// The first error of a message. An index is that of an entry, or of a summary's stamp, from 0.
#[derive(Clone, Copy, PartialEq, Eq, Debug, Error)]
pub enum MessageFault {
    /// Code 1: an allocation failed, or a count of references would overflow.
    #[error("message 1: out of memory")]
    NoMemory,
    /// Code 50: the bytes are not JSON.
    #[error("message 50: not JSON")]
    NotJson,
    /// Code 51: the JSON does not have the shape of the expected message.
    #[error("message 51: JSON without the form of such a message")]
    BadShape,
    /// Code 52: the message has the label of another schema.
    #[error("message 52: schema label of another schema")]
    OtherSchema,
    /// Code 53: the version is neither 1 nor 2.
    #[error("message 53: version other than 1 and 2")]
    Version,
    /// Code 54: the count of the entry or stamp at this index is 0 or over 10^18.
    #[error("message 54: count of 0, or over 10^18, at entry {0}")]
    CountRange(usize),
    /// Code 55: at this index, the name of an entry or stamp, or the body of an entry, is rejected. The second field is
    /// the code of the inner error.
    #[error("message 55: entry {0} refused with code {1}")]
    BadEntry(usize, u8),
    /// Code 56: the entry at this index is of an entity, and its body has another uid.
    #[error("message 56: body of another entity at entry {0}")]
    BodyOfOtherName(usize),
}

impl MessageFault {
    /// Returns the error's code.
    pub fn code(self) -> u8
        ensures { result ≡ code_of self }
    {
        match self {
            MessageFault::NoMemory => 1,
            MessageFault::NotJson => 50,
            MessageFault::BadShape => 51,
            MessageFault::OtherSchema => 52,
            MessageFault::Version => 53,
            MessageFault::CountRange(_) => 54,
            MessageFault::BadEntry(_, _) => 55,
            MessageFault::BodyOfOtherName(_) => 56,
        }
    }

    /// Returns the index of the entry or stamp that has the error, or `None` for an error of the message as a whole.
    pub fn place(self) -> Option<usize>
        ensures { result ≡ place_of self }
    {
        match self {
            MessageFault::CountRange(place)
            | MessageFault::BadEntry(place, _)
            | MessageFault::BodyOfOtherName(place) => Some(place),
            _ => None,
        }
    }

    /// Returns the code of the inner error, or `None` if there is no inner error.
    pub fn within(self) -> Option<u8>
        ensures { result ≡ within_of self }
    {
        match self {
            MessageFault::BadEntry(_, within) => Some(within),
            _ => None,
        }
    }
}

impl From<plain::NoMemory> for MessageFault {
    ghost from_gives = { λ _ e. e ≡ NoMemory };

    fn from(_error: plain::NoMemory) -> MessageFault {
        MessageFault::NoMemory
    }
}

impl<T: Drop> From<AllocFailed<T>> for MessageFault {
    ghost from_gives = { λ _ e. e ≡ NoMemory };

    fn from(_error: AllocFailed<T>) -> MessageFault {
        MessageFault::NoMemory
    }
}
