//! The errors of a site.
ghost use Rattle.std.specs.Prelude.{◌≡◌};
ghost use Rattle.site.specs.Faults.{of_reading, of_checking, of_message, code_of, within_of};
ghost use Rattle.site.specs.declared.fault.SiteFault.TheVariants.{NoMemory};

use entities::EntityFault;
use plain::NoMemory;
use site_store::ReadFault;
use std::alloc::AllocFailed;
use sync_messages::{MessageFault, TypeFault};
use thiserror::Error;

/// The error of an operation. The site is then unchanged.
#[derive(Clone, Copy, Debug, Error)]
pub enum SiteFault {
    /// Code 1: an allocation failed, or a count of references would overflow.
    #[error("site 1: out of memory")]
    NoMemory,
    /// Codes 10 to 19: the id of a policy is not UTF-8 of 1 to 256 bytes (19), or its text is not that of a policy.
    #[error(transparent)]
    Policy(ReadFault),
    /// Codes 40 to 46: the policy does not pass validation under the schema.
    #[error(transparent)]
    Check(TypeFault),
    /// Codes 30 to 38: the JSON does not describe an entity under the schema, or that of a deletion no uid (30).
    #[error(transparent)]
    Entity(EntityFault),
    /// Codes 50 to 56: the bytes are not a message of the expected kind for the site's schema.
    #[error(transparent)]
    Message(MessageFault),
    /// Code 60: the name to be deleted has no text. A query for a policy without a text is reported with this code too.
    #[error("site 60: nothing stored under this name")]
    NotThere,
    /// Code 61: the put would make the entity cyclic.
    #[error("site 61: entity that would be its own ancestor")]
    WouldCycle,
    /// Code 62: no stamp is left; the greatest count in the store is 10^18.
    #[error("site 62: no stamp left; the greatest count in the store is 10^18")]
    ClockFull,
    /// Code 63: the JSON does not describe a request under the schema; [`Self::within`] returns the inner error's code.
    #[error("site 63: invalid request ({0})")]
    Request(EntityFault),
}

impl SiteFault {
    /// Returns the error's code.
    pub fn code(self) -> u8
        ensures { result ≡ code_of self }
    {
        match self {
            SiteFault::NoMemory => 1,
            SiteFault::Policy(fault) => fault.code(),
            SiteFault::Check(fault) => fault.code(),
            SiteFault::Entity(fault) => fault.code(),
            SiteFault::Message(fault) => fault.code(),
            SiteFault::NotThere => 60,
            SiteFault::WouldCycle => 61,
            SiteFault::ClockFull => 62,
            SiteFault::Request(_) => 63,
        }
    }

    /// Returns the code of the inner error, if the error is that of a request or the error 55 of a message; else
    /// `None`.
    pub fn within(self) -> Option<u8>
        ensures { result ≡ within_of self }
    {
        match self {
            SiteFault::Message(fault) => fault.within(),
            SiteFault::Request(fault) => Some(fault.code()),
            _ => None,
        }
    }
}

impl From<NoMemory> for SiteFault {
    ghost from_gives = { λ _ f. f ≡ NoMemory };

    fn from(_error: NoMemory) -> SiteFault {
        SiteFault::NoMemory
    }
}

impl<T: Drop> From<AllocFailed<T>> for SiteFault {
    ghost from_gives = { λ _ f. f ≡ NoMemory };

    fn from(_error: AllocFailed<T>) -> SiteFault {
        SiteFault::NoMemory
    }
}

impl From<ReadFault> for SiteFault {
    ghost from_gives = { λ fault f. f ≡ of_reading fault };

    fn from(fault: ReadFault) -> SiteFault {
        match fault {
            ReadFault::NoMemory => SiteFault::NoMemory,
            _ => SiteFault::Policy(fault),
        }
    }
}

impl From<TypeFault> for SiteFault {
    ghost from_gives = { λ fault f. f ≡ of_checking fault };

    fn from(fault: TypeFault) -> SiteFault {
        match fault {
            TypeFault::NoMemory => SiteFault::NoMemory,
            _ => SiteFault::Check(fault),
        }
    }
}

impl From<MessageFault> for SiteFault {
    ghost from_gives = { λ fault f. f ≡ of_message fault };

    fn from(fault: MessageFault) -> SiteFault {
        match fault {
            MessageFault::NoMemory => SiteFault::NoMemory,
            _ => SiteFault::Message(fault),
        }
    }
}
