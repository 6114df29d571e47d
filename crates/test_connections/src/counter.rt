//! A service that counts its requests.
ghost use Rattle.std.specs.Prelude.{◌≡◌, ◌≤◌, ⊤, length};
ghost use Rattle.std.specs.Vec.{vec_capacity};
ghost use Rattle.test_connections.specs.Pairs.{IsLess, IsPair, no_request, prefix_free, short};

use connections::service::{CommitFailed, Outcome, Service};

/// A count of the requests that were answered. A request is a command and a byte, and is answered by the byte and the
/// count; the command `q` ends the connection.
#[derive(Drop)]
pub struct Counter {
    answered: u8,
    /// The number of commits before those that fail.
    commits: usize,
}

impl Counter {
    /// Creates a service whose commits fail after so many.
    pub fn new(commits: usize) -> Counter {
        Counter {
            answered: 0,
            commits,
        }
    }
}

/// Appends bytes if memory suffices.
fn put(out: &mut Vec<u8>, bytes: &[u8])
    ensures { vec_capacity out.old ≤ vec_capacity out.new }
{
    match out.extend_from_slice(bytes) {
        Ok(()) | Err(_) => {}
    }
}

impl Service for Counter {
    ghost is_request = { IsPair };

    ghost is_unfinished = { IsLess };

    ghost answers = { λ old request closes reply new. IsPair request };

    ghost lines = { λ request closes reply line. ⊤ };

    ghost commits = { λ old new. ⊤ };

    ghost commit_fails = { λ old new. ⊤ };

    fn answer(&mut self, bytes: &[u8], out: &mut Vec<u8>, line: &mut Vec<u8>) -> Outcome {
        if bytes.len() < 2 {
            return Outcome::Unfinished(2);
        }
        let command = bytes[0];
        let byte = bytes[1];
        self.answered = self.answered.wrapping_add(1);
        put(out, &[byte, b'0'.wrapping_add(self.answered)]);
        put(line, &[byte, b';']);
        Outcome::Answered(2, command == b'q')
    }

    fn commit(&mut self) -> Result<(), CommitFailed> {
        if self.commits == 0 {
            return Err(CommitFailed);
        }
        self.commits -= 1;
        Ok(())
    }

    ghost prefix_free = { prefix_free };

    ghost no_request = { no_request };

    ghost short = { short };

    ghost requests = { λ old new request closes reply h lasts. h };
}
