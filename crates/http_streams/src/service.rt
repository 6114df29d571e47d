//! Services, which answer requests.
ghost use Rattle.std.specs.Prelude.{◌≡◌, ◌≤◌, ◌+◌, ℕ, List, [], ◌++◌, OnErr, OnOk, vec_len};
ghost use Rattle.std.specs.Vec.{vec_capacity};
ghost use Rattle.http_streams.specs.declared.TheConstants.{REPLY_ROOM};
ghost use Rattle.http.specs.declared.status.StatusCode.{StatusCode};

use connections::service::CommitFailed;
use http::StatusCode;

/// A state with a relation between requests and their answers, for the theorems about streams. The trait has no code.
pub trait Answers {
    // Relates a state, a request (method, target, body), its reply (status, body), and the state afterwards.
    ghost answers: { Self → List ℕ → List ℕ → List ℕ → StatusCode → List ℕ → Self → Type 0 };

    // Relates two states that the theorems consider the same; the theorems have the premise that no request
    // distinguishes such states. By default, equal states.
    ghost same: { Self → Self → Type 0 } = { λ one other. one ≡ other };
}

/// A state that answers requests, and makes the line that a log gets for each.
pub trait Service: Answers {
    // Relates a request (method, target, body) and its reply (status, body) to the line that the log may get. By
    // default, an empty one.
    ghost lines: { List ℕ → List ℕ → List ℕ → StatusCode → List ℕ → List ℕ → Type 0 } = { λ _ _ _ _ _ line. line ≡ [] };

    // The line for bytes that are rejected with this status.
    ghost refusal_line: { StatusCode → List ℕ } = { λ _. [] };

    // The length of the longest line that is made without allocating.
    ghost line_room: { ℕ } = { 0 };

    // Relates the states around a commit that succeeded. By default, equal states.
    ghost commits: { Self → Self → Type 0 } = { λ old new. new ≡ old };

    // Relates the states around a commit that failed. By default, none does.
    ghost commit_fails: { Self → Self → Type 0 } = { λ _ _. ⊥ };

    /// Appends the body of the reply to `text`, puts the line for the log, if there is one, into `line`, and returns
    /// the status.
    ///
    /// `text` has spare capacity for a short reply (`REPLY_ROOM` bytes). So a service that cannot allocate a longer
    /// reply can report the failure without allocating. `line` is empty, and has capacity for a short line
    /// (`line_room` bytes). Both keep their memory for the next reply.
    ///
    /// Each reply announces a body, so a service should not return a status 1xx, 204 or 304 (RFC 9112, section 6.3);
    /// the contract does not demand this.
    fn call(
        &mut self,
        method: &[u8],
        target: &[u8],
        body: &[u8],
        text: &mut Vec<u8>,
        line: &mut Vec<u8>,
    ) -> StatusCode
        requires room { vec_len text.old + REPLY_ROOM ≤ vec_capacity text.old }
        requires empty { line.old.items ≡ [] }
        requires line_room { line_room ≤ vec_capacity line.old }
        ensures reply { (reply : List ℕ) × (text.new.items ≡ text.old.items ++ reply)
            × Self.answers self.old method.now target.now body.now result reply self.new
            × lines method.now target.now body.now result reply line.new.items }
        ensures kept { vec_capacity text.old ≤ vec_capacity text.new }
        ensures line_kept { vec_capacity line.old ≤ vec_capacity line.new };

    /// Puts the line for bytes that are rejected with this status into `line`, which is empty and has capacity for
    /// `line_room` bytes. Does not allocate.
    fn put_refusal_line(status: StatusCode, line: &mut Vec<u8>)
        requires empty { line.old.items ≡ [] }
        requires room { line_room ≤ vec_capacity line.old }
        ensures line { line.new.items ≡ refusal_line status }
        ensures kept { vec_capacity line.old ≤ vec_capacity line.new };

    /// Commits all replies since the last call. A service without a journal does nothing.
    ///
    /// # Errors
    ///
    /// - `CommitFailed`: nothing of these replies may go out.
    fn commit(&mut self) -> Result<(), CommitFailed>
        ensures ok { OnOk result (commits self.old self.new) }
        ensures err { OnErr result (commit_fails self.old self.new) };
}
