//! Errors of entities and requests, each with the path to the part at fault.
ghost use Rattle.std.specs.Prelude.{◌≡◌, IfOk, MatchResult};
ghost use Rattle.explanations.specs.inner.PartFaults.{IsFaultOf, IsAtPath};

use crate::steps::{Step, Trail};
use entities::EntityFault;
use plain::NoMemory;

/// The error of a JSON value that is rejected as an entity or a request, and the path from it to the part at fault.
#[derive(Drop)]
pub(crate) struct PartFault<'p> {
    /// The error of parsing the JSON.
    pub fault: EntityFault,
    /// The steps to the part; empty if the whole is at fault. If a required key is absent, that key is the last step.
    pub path: Vec<Step<'p>>,
}

/// Returns the error that parsing gave, or `None` if it gave a value. The call's only error is `NoMemory`.
pub(crate) fn fault_of<T>(read: &Result<T, EntityFault>) -> Result<Option<EntityFault>, NoMemory>
    ensures { IfOk result (IsFaultOf read.now) }
{
    match read {
        Ok(_) => Ok(None),
        Err(fault) => match *fault {
            EntityFault::NoMemory => Err(NoMemory),
            _ => Ok(Some(*fault)),
        },
    }
}

/// Returns an error with the path that a search gave, or `None` if the search found no path. The call's only error is
/// that of the search.
pub(crate) fn at_path<'p>(
    fault: EntityFault,
    found: Result<Option<Trail<'p>>, NoMemory>,
) -> Result<Option<PartFault<'p>>, NoMemory>
    ensures { IfOk result (λ o. MatchResult found.entry (λ path. IsAtPath fault path o) (λ _. ⊥)) }
{
    match found {
        Ok(Some(trail)) => Ok(Some(PartFault {
            fault,
            path: trail.into_path(),
        })),
        Ok(None) => Ok(None),
        Err(memory) => Err(memory),
    }
}
