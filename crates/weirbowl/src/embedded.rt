//! A site in the process of its caller.
ghost use Rattle.std.specs.Prelude.{◌≡◌, ◌≤◌};
ghost use Rattle.std.specs.Vec.{vec_capacity};
ghost use Rattle.http_replies.specs.declared.TheConstants.{LINE_ROOM};

use http::StatusCode;
use http_replies::{Input, Scratch, Site, reply_to};
use std::alloc::Global;

/// A site, with the body of its last reply.
#[derive(Drop)]
pub struct EmbeddedSite {
    pub(crate) alloc: Global,
    // memory for parsed JSON, reused because new memory would be zeroed whole
    pub(crate) scratch: Scratch,
    /// The site.
    pub site: Site,
    /// The body of the last reply; empty before the first call.
    pub body: Vec<u8>,
    // enough for the reply to a change, or for an error: these are written without an allocation
    ghost room: { LINE_ROOM ≤ vec_capacity body },
}

impl EmbeddedSite {
    ghost use Rattle.http_replies.specs.site.Inputs.{input_of};
    ghost use Rattle.weirbowl.specs.Embedding.{IsCalled};

    /// Answers an input in one step of the site, keeps the body of the reply in place of the last one, and returns the
    /// status. Out of memory is a reply too (503).
    pub fn call(&mut self, input: &Input<'_>) -> StatusCode
        ensures { IsCalled self.old (input_of input.now) result self.new }
    {
        self.body.clear();
        reply_to(
            self.alloc,
            &mut self.scratch,
            &mut self.site,
            input,
            &mut self.body,
        )
    }

    /// Returns the body of the last reply.
    pub fn body(&self) -> &[u8]
        ensures { result.now ≡ self.now.body.items }
    {
        self.body.as_slice()
    }
}
