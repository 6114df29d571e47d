//! Services, which cut requests off the front of bytes and answer them.
ghost use Rattle.std.specs.Prelude.{◌≡◌, ◌≤◌, ℕ, Bool, false, List, [], OnOk, OnErr, length};
ghost use Rattle.std.specs.Vec.{vec_capacity};
ghost use Rattle.connections.specs.Framing.{HasNoRequest, IsPrefixFree};
ghost use Rattle.connections.specs.declared.TheConstants.{LINE_ROOM, MAX_REQUEST, REPLY_ROOM};
ghost use Rattle.connections.specs.Answers.{IsAnswer};

/// What a service found at the front of some bytes.
#[derive(Clone, Copy)]
pub enum Outcome {
    /// It answered a request of this many bytes; the flag is whether the reply ends the connection.
    Answered(usize, bool),
    /// The bytes are less than a request, and remain so, whatever follows, until there are at least this many in all.
    Unfinished(usize),
}

/// The error of a service that could not commit its replies.
#[derive(Clone, Copy)]
pub struct CommitFailed;

/// A state that answers requests, which it cuts off the front of bytes.
pub trait Service {
    // Holds for the bytes of a whole request.
    ghost is_request: { List ℕ → Type 0 };

    // Holds for bytes that are less than a request.
    ghost is_unfinished: { List ℕ → Type 0 };

    // Relates a state, the bytes of a request, whether the reply ends the connection, the reply, and the state
    // afterwards.
    ghost answers: { Self → List ℕ → Bool → List ℕ → Self → Type 0 };

    // Relates a request, whether its reply ends the connection, the reply, and the line that the log may get for them.
    ghost lines: { List ℕ → Bool → List ℕ → List ℕ → Type 0 };

    // Relates the states around a commit that succeeded.
    ghost commits: { Self → Self → Type 0 };

    // Relates the states around a commit that failed.
    ghost commit_fails: { Self → Self → Type 0 };

    /// Answers the request at the front of `bytes` if it is whole; puts the reply into `out`, and the line that the log
    /// is to get into `line`. Both are empty.
    ///
    /// `out` has capacity for a short reply (`REPLY_ROOM` bytes) and `line` for a short line (`LINE_ROOM` bytes), so a
    /// service that cannot allocate a longer one can report the failure. Both keep their memory for the next reply.
    fn answer(&mut self, bytes: &[u8], out: &mut Vec<u8>, line: &mut Vec<u8>) -> Outcome
        requires empty { out.old.items ≡ [] }
        requires no_line { line.old.items ≡ [] }
        requires room { REPLY_ROOM ≤ vec_capacity out.old }
        requires line_room { LINE_ROOM ≤ vec_capacity line.old }
        ensures answer { IsAnswer answers lines is_unfinished self.old bytes.now result
            out.new.items line.new.items self.new }
        ensures kept { vec_capacity out.old ≤ vec_capacity out.new }
        ensures line_kept { vec_capacity line.old ≤ vec_capacity line.new };

    /// Commits all replies since the last call, before anything of them goes out. A service with a journal appends to
    /// it, once for all of them, and waits until this is on the disk; one without a journal does nothing.
    ///
    /// # Errors
    ///
    /// - `CommitFailed`: nothing of these replies may go out.
    fn commit(&mut self) -> Result<(), CommitFailed>
        ensures ok { OnOk result (commits self.old self.new) }
        ensures err { OnErr result (commit_fails self.old self.new) };

    // No request is a proper prefix of another.
    ghost prefix_free: { IsPrefixFree is_request };

    // Bytes that are less than a request do not begin with one.
    ghost no_request: { HasNoRequest is_request is_unfinished };

    // Bytes that are less than a request are at most `MAX_REQUEST`.
    ghost short: { (bytes : List ℕ) → is_unfinished bytes → length bytes ≤ MAX_REQUEST };

    // What is answered by a reply that does not end the connection is a request. A reply that ends it may also reject
    // all bytes that came.
    ghost requests: { (old new : Self) (request : List ℕ) (closes : Bool) (reply : List ℕ) →
        answers old request closes reply new → closes ≡ false → is_request request };
}
