//! Errors of pulls, and of the calls of an exchange.
ghost use Rattle.std.specs.Prelude.{◌≡◌};
ghost use Rattle.schema_decisions.specs.answer_lines.Refusals.{no_memory};
ghost use Rattle.program_exchanges.specs.declared.fault.PullFault.TheVariants as pull;

use http_streams::fetch::FetchFault;
use plain::NoMemory;
use schema_decisions::Refusal;
use thiserror::Error;

/// The reason why there is no reply of status 200.
#[derive(Clone, Copy, PartialEq, Eq, Debug, Error)]
pub enum NetworkFault {
    /// There is no reply (70 to 73). Never [`FetchFault::NoMemory`], which is a [`PullFault::Refused`].
    #[error(transparent)]
    Fetch(FetchFault),
    /// The reply has this status, which is not 200 (74). Its body is ignored.
    #[error("network 74: reply with status {0}")]
    OtherStatus(u16),
    /// The address has a byte that is not allowed in the field `Host` (75). Nothing was sent.
    #[error("network 75: no host")]
    NoHost,
    /// The body is longer than a site accepts (77). Nothing was sent.
    #[error("network 77: request larger than a site takes")]
    TooLarge,
}

/// An error of a pull, or of one call of an exchange. After an error of a pull there is no new state.
#[derive(Clone, Copy, PartialEq, Eq, Debug, Error)]
pub enum PullFault {
    /// The schema, the state or the received message is rejected (20 to 25, 50 to 56), or an allocation failed (1).
    #[error(transparent)]
    Refused(Refusal),
    /// There is no reply of status 200 (70 to 75, 77).
    #[error(transparent)]
    Network(NetworkFault),
}

impl From<Refusal> for PullFault {
    ghost from_gives = { λ refusal f. f ≡ pull.Refused refusal };

    fn from(refusal: Refusal) -> PullFault {
        PullFault::Refused(refusal)
    }
}

impl From<NoMemory> for PullFault {
    ghost from_gives = { λ _ f. f ≡ pull.Refused no_memory };

    fn from(error: NoMemory) -> PullFault {
        PullFault::Refused(Refusal::from(error))
    }
}
