//! A service that waits for the longest request.
ghost use Rattle.std.specs.Prelude.{◌≡◌, ⊤, true};
ghost use Rattle.test_connections.specs.Long.{IsNone, IsShort, no_request, prefix_free, requests, short};

use connections::MAX_REQUEST;
use connections::service::{CommitFailed, Outcome, Service};

/// A service that answers only what has as many bytes as the longest request, and then ends the connection.
#[derive(Drop)]
pub struct Hungry {}

impl Service for Hungry {
    ghost is_request = { IsNone };

    ghost is_unfinished = { IsShort };

    ghost answers = { λ old request closes reply new. closes ≡ true };

    ghost lines = { λ request closes reply line. ⊤ };

    ghost commits = { λ old new. ⊤ };

    ghost commit_fails = { λ old new. ⊤ };

    fn answer(&mut self, bytes: &[u8], _out: &mut Vec<u8>, _line: &mut Vec<u8>) -> Outcome {
        if bytes.len() < MAX_REQUEST {
            return Outcome::Unfinished(MAX_REQUEST);
        }
        Outcome::Answered(bytes.len(), true)
    }

    fn commit(&mut self) -> Result<(), CommitFailed> {
        Ok(())
    }

    ghost prefix_free = { prefix_free };

    ghost no_request = { no_request };

    ghost short = { short };

    ghost requests = { λ old new request closes reply h lasts. requests request closes h lasts };
}
