//! Authorization requests.
ghost use Rattle.std.specs.Prelude.{◌≡◌, IfOk};

use crate::entity_uid::EntityUid;
use crate::record::Record;
use extensions::NoMemory;
use std::alloc::Global;

/// An authorization request: may this principal perform this action on this resource, in this context?
///
/// Requests are ordered by principal, then action, then resource, then context.
#[derive(PartialEq, Eq, PartialOrd, Ord, Drop)]
pub struct Request {
    /// The principal.
    pub principal: EntityUid,
    /// The action.
    pub action: EntityUid,
    /// The resource.
    pub resource: EntityUid,
    /// The context of the request.
    pub context: Record,
}

impl Request {
    /// Returns a copy of the request, or `NoMemory`.
    pub fn copy(&self, alloc: Global) -> Result<Request, NoMemory>
        ensures { IfOk result (λ q. q ≡ self.now) }
    {
        let principal = self.principal.copy()?;
        let action = self.action.copy()?;
        let resource = self.resource.copy()?;
        let context = self.context.copy(alloc)?;
        Ok(Request {
            principal,
            action,
            resource,
            context,
        })
    }
}
