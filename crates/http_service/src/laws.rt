//! Theorems about streams over a site. The functions are no-ops.
ghost use Rattle.std.specs.Prelude.{◌≡◌, ◌≤◌, ◌++◌, ℕ, Bool, List, Result, length};
ghost use Rattle.std.specs.Io.KnownBytes.{Consumes};
ghost use Rattle.http.specs.declared.status.StatusCode.{StatusCode};
ghost use Rattle.http_service.specs.AskedInputs.{ConnectionsLeaveRuns};
ghost use Rattle.http_service.specs.LogLines.{IsLogLine, head_text, text_of};
ghost use Rattle.http_service.specs.OneLine.{IsOneLine};
ghost use Rattle.http_service.specs.Routes.{route_stated};
ghost use Rattle.http_streams.specs.Laws.{AgreeOn, AnswersAll, BeginsAnswer, HasOneAnswer, StopsIn, in_memory};
ghost use Rattle.http_streams.specs.Serving.{IsAnswered};
ghost use Rattle.http_streams.specs.Stream.{EndsByReply, AnswersAllRequests, StopsWithinReply};
ghost use Rattle.http_replies.specs.Lines.{put_line, stamp_line};
ghost use Rattle.http_replies.specs.site.SiteViews.{SiteView};
ghost use Rattle.http_replies.specs.site.Steps.{most_count};
ghost use Rattle.http_replies.specs.stamped_store.SiteNames.{IsSiteName};
ghost use Rattle.http_replies.specs.stamped_store.declared.entry.Stamp.{Stamp};
ghost use Rattle.http_replies.specs.site.Inputs.{Input};
ghost use Rattle.http_replies.specs.site.declared.reply.Reply.{Reply};
ghost use Rattle.http_replies.specs.schema.Views.{IsStated};
ghost use Rattle.http_replies.specs.site.Permitted.{IsPermittedReply};
ghost use Rattle.http_replies.specs.Answers.{Replies};
ghost use Rattle.http_replies.specs.Reports.{reported};
ghost use Rattle.http_service.specs.RequestReplies.{IsAlike, answers};
ghost use Rattle.http_service.specs.Lines.{IsChange, stamped_end};
ghost use Rattle.http_service.specs.Serving.{IsServed};
ghost use Rattle.http_service.specs.Streams.{HaveInputs, LeavesRun};

use crate::site_service::ViewedSite;
use http_replies::{inputs_have_one_outcome, runs_are_sound, runs_leave_what_they_took};
use http_streams::laws::{begins_answer, one_answer};
use http_streams::serve::LoggedFault;
use http_streams::{Sink, Source};

/// Proves that, however a stream of requests ends, the site afterwards is the result of a run. Its inputs are those
/// that the first requests of the stream ask for, in order. So the store of the site is the join of the updates that
/// the site had and those that the run applied. No-op.
pub fn streams_leave_runs()
    ensures rests { (old new : SiteView) (bytes out : List ℕ) → AnswersAllRequests answers old bytes out new
        → LeavesRun old bytes new }
    ensures ends { (old new : SiteView) (bytes out : List ℕ) → EndsByReply answers old bytes out new
        → LeavesRun old bytes new }
    ensures stops { (old new : SiteView) (bytes out : List ℕ) → StopsWithinReply answers old bytes out new
        → LeavesRun old bytes new }
{
    runs_leave_what_they_took();
}

/// Proves the parts of `IsServed`, the promise of a call that served a site. No-op.
///
/// - `answered`: the first requests in the bytes read were answered, each by the site as it was then. The replies were
///   written, of which the last may be cut off or unsent, and the call ended as the result says.
/// - `asked`: the inputs of the run are those that the first requests in the bytes read ask for.
/// - `run`: the site's store is the join of the updates that the site had and those that the run applied.
pub fn served_streams_are_answered<R: Source, W: Sink>()
    ensures answered { (first last : R) (before after : W) (old new : SiteView) (result : Result (Unit {0}) LoggedFault)
        → IsServed R.left R.failed R.reads R.fails W.holds W.failed W.fails first last before after old new result
        → IsAnswered answers R.left R.failed R.reads R.fails W.holds W.failed W.fails first last before after old new
        result }
    ensures asked { (first last : R) (before after : W) (old new : SiteView) (result : Result (Unit {0}) LoggedFault)
        (h : IsServed R.left R.failed R.reads R.fails W.holds W.failed W.fails first last before after old new result)
        → (count : ℕ) × (rest : List ℕ) × HaveInputs count h.answered.bytes rest h.inputs }
    ensures run { (first last : R) (before after : W) (old new : SiteView) (result : Result (Unit {0}) LoggedFault)
        → IsServed R.left R.failed R.reads R.fails W.holds W.failed W.fails first last before after old new result
        → (bytes : List ℕ) × Consumes (R.left first) (R.left last) bytes × LeavesRun old bytes new }
{
    runs_leave_what_they_took();
}

/// Proves the parts of `AreConnectionsServed`, the promise of a call that served many connections. No-op.
///
/// The site replies to each request as it was then. The inputs of the run are those that the answered requests ask for,
/// of all connections, in the order in which they were answered. Each reply of a connection is a reply of the site to
/// the request of this connection.
pub fn connections_leave_runs()
    ensures { ConnectionsLeaveRuns }
{}

/// Proves that, under one schema that some bytes describe, sites with the same name and equal stores answer each
/// request with the same status and body, and hold equal stores afterwards, except when out of memory (503). No-op.
pub fn requests_have_one_reply()
    ensures { HasOneAnswer (in_memory answers) IsAlike }
{
    inputs_have_one_outcome();
}

/// Proves that, however a stream of requests is split into reads, the same bytes are sent and the site holds the same
/// store, except when out of memory (503). No-op.
///
/// What is sent before a failed read, write or allocation is a prefix of what is sent without one. One exception to
/// both statements: a stream that ends inside a request target that is not UTF-8 may get the reply 400 or nothing.
/// `http_streams::laws::in_memory_or_503` covers the answers with a 503.
pub fn cuts_make_no_difference()
    ensures whole { (old old2 new new2 : SiteView) (stream out more : List ℕ) → IsAlike old old2
        → AnswersAll (in_memory answers) old stream out new → AnswersAll (in_memory answers) old2 stream more new2
        → AgreeOn (in_memory answers) IsAlike old old2 stream out more new new2 }
    ensures broken { (old old2 new new2 : SiteView) (stream out more : List ℕ) → IsAlike old old2
        → StopsIn (in_memory answers) old stream out new → AnswersAll (in_memory answers) old2 stream more new2
        → BeginsAnswer (in_memory answers) old2 stream out more new2 }
{
    requests_have_one_reply();
    one_answer::<ViewedSite>();
    begins_answer::<ViewedSite>();
}

/// Proves that, under a schema that some bytes describe, no reply to an input reports a type error, a missing attribute
/// or an error of an extension function. No-op.
///
/// The reply is that of one step. If it is an answer, each error in it is `EntityDoesNotExist` or `ArithBoundsError`.
pub fn served_answers_are_sound()
    ensures { (old new : SiteView) (input : Input) (status : StatusCode) (line : List ℕ) → IsStated old.schema
        → Replies old input status line new
        → (reply : Reply) × IsPermittedReply reply × ((status, line) ≡ reported reply) }
{
    runs_are_sound();
}

/// Proves that the log has the stamp of each change that was made. No-op.
///
/// The body of the reply to a change has at most 128 bytes, for each stamp that a site issues. So the line of a put or
/// a deletion with status 200 has this whole body, which has the stamp, as its last member.
pub fn change_lines_have_stamps()
    ensures stamp { (s : Stamp) → IsSiteName s.site → s.count ≤ most_count → length (stamp_line s) ≤ 128 }
    ensures put { (s : Stamp) (impossible : Bool) → IsSiteName s.site → s.count ≤ most_count
        → length (put_line s impossible) ≤ 128 }
    ensures line { (old new : SiteView) (method target body reply line : List ℕ) → IsSiteName old.name
        → IsChange (route_stated method target body) → answers old method target body 200 reply new
        → IsLogLine method target body 200 reply line
        → line ≡ head_text (text_of method) (text_of target) ++ stamped_end reply }
{}

/// Proves that the log can't be forged through the service: the line of a request has one line feed, its last byte,
/// whatever the request is and however a site answers it. No-op.
pub fn served_lines_are_one_line()
    ensures { (old new : SiteView) (method target body : List ℕ) (status : StatusCode) (reply line : List ℕ)
        → answers old method target body status reply new → IsLogLine method target body status reply line
        → IsOneLine line }
{}
