//! The errors of puts, as a [`Refusal`].
ghost use Rattle.std.specs.Prelude.{◌≡◌};
ghost use Rattle.site_loading.specs.Puts.{put_refusal};

use plain::NoMemory;
use schema_decisions::{Place, Refusal};
use site::SiteFault;

/// Converts the error of a put to a [`Refusal`] whose place is the index of the policy or entity in its file.
/// `NoMemory` has no place.
pub(crate) fn put_refusal(index: usize, fault: SiteFault) -> Refusal
    ensures { result ≡ put_refusal index fault }
{
    match fault {
        SiteFault::NoMemory => Refusal::from(NoMemory),
        _ => Refusal {
            code: fault.code(),
            place: Some(Place::Index(index)),
            within: fault.within(),
        },
    }
}
