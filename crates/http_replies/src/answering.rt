//! Inputs of a site, each answered by a status and a body.
ghost use Rattle.std.specs.Prelude.{◌≤◌, ◌+◌, vec_len};
ghost use Rattle.std.specs.Vec.{vec_capacity};
ghost use Rattle.site.specs.Inputs.{input_of};
ghost use Rattle.http_replies.specs.Answers.{Appends};

use crate::LINE_ROOM;
use crate::replying::report_reply;
use http::StatusCode;
use json_words::Scratch;
use site::{Input, Site};
use std::alloc::Global;

/// Answers an input in one step of the site: appends the body of the reply to `text`, and returns the status. Out of
/// memory is a reply too (503).
///
/// Requires that `text` has spare capacity for a short line (`LINE_ROOM` bytes). `scratch` is reused memory; its
/// earlier content has no effect.
pub fn reply_to(
    alloc: Global,
    scratch: &mut Scratch,
    site: &mut Site,
    input: &Input<'_>,
    text: &mut Vec<u8>,
) -> StatusCode
    requires room { vec_len text.old + LINE_ROOM ≤ vec_capacity text.old }
    ensures reply { Appends site.old (input_of input.now) result text.old.items text.new.items site.new }
    ensures kept { vec_capacity text.old ≤ vec_capacity text.new }
{
    let reply = site.answer(scratch, input);
    report_reply(alloc, text, &reply)
}
