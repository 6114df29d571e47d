//! Theorems about the replies to a stream, and to the requests of many connections. The functions are no-ops.
ghost use Rattle.std.specs.Prelude.{ℕ, List, ◌⊎◌, []};
ghost use Rattle.http_streams.specs.FramedLaws.{PiecesMakeNoDifference, QuietHaveReplies, TurnsAreReplied};
ghost use Rattle.http_streams.specs.Laws.{AgreeOn, AnswersAll, BeginsAnswer, HasOneAnswer};
ghost use Rattle.http_streams.specs.Laws.{HasFirst503, StopsIn, in_memory};

use crate::framed::Framed;
use crate::service::{Answers, Service};
use connections::laws::{one_cut, quiet_are_answered, stories_fit};

/// Proves that a stream has at most one answer without a reply 503 (out of memory), however the stream is split into
/// reads. Two such answers, from states that are the same (`S.same`), send equal bytes, and the states afterwards are
/// the same. No-op.
///
/// The premise is that states that are the same have at most one answer other than 503 to each request, and are the
/// same after it. One exception: a stream that ends inside a request target that is not UTF-8 may get the reply 400 or
/// nothing.
pub fn one_answer<S: Answers>()
    ensures { HasOneAnswer (in_memory S.answers) S.same → (old old2 new new2 : S) → (stream out more : List ℕ)
        → S.same old old2
        → AnswersAll (in_memory S.answers) old stream out new → AnswersAll (in_memory S.answers) old2 stream more new2
        → AgreeOn (in_memory S.answers) S.same old old2 stream out more new new2 }
{}

/// Proves that what is sent before an error (of the reader, the writer, the log or an allocation) is a prefix of what
/// is sent without an error, if neither has a reply 503. The premise and the exception are those of [`one_answer`].
/// No-op.
pub fn begins_answer<S: Answers>()
    ensures { HasOneAnswer (in_memory S.answers) S.same → (old old2 new new2 : S) → (stream out more : List ℕ)
        → S.same old old2
        → StopsIn (in_memory S.answers) old stream out new → AnswersAll (in_memory S.answers) old2 stream more new2
        → BeginsAnswer (in_memory S.answers) old2 stream out more new2 }
{}

/// Proves that each answer to a stream has no reply 503, or has a first one: all replies before it have other statuses.
/// If the answer was cut off, perhaps only a part of this 503 was sent. No-op.
pub fn in_memory_or_503<S: Answers>()
    ensures whole { (old new : S) → (stream out : List ℕ) → AnswersAll S.answers old stream out new
        → AnswersAll (in_memory S.answers) old stream out new ⊎ HasFirst503 S.answers old stream out [] }
    ensures broken { (old new : S) → (stream out : List ℕ) → StopsIn S.answers old stream out new
        → StopsIn (in_memory S.answers) old stream out new
        ⊎ ((unsent : List ℕ) × HasFirst503 S.answers old stream out unsent) }
{}

/// Proves that the requests of many connections are answered like those of one stream, whatever happens at the other
/// connections. Each turn of a connection is a reply of the service. If moreover no connection has a whole request
/// left, on each that goes on the bytes that came are exactly the requests that were answered, in order, and less than
/// one more, and its writer took exactly their replies. The pieces in which the bytes came make no difference to this.
/// No-op.
pub fn requests_are_answered<S: Service>()
    ensures turns { TurnsAreReplied S.answers S.lines S.refusal_line S.commits S.commit_fails }
    ensures quiet { QuietHaveReplies S.answers S.lines S.refusal_line S.commits S.commit_fails }
    ensures pieces { PiecesMakeNoDifference S.answers }
{
    stories_fit();
    quiet_are_answered::<Framed<S>>();
    one_cut::<Framed<S>>();
}
