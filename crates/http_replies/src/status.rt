//! Statuses of errors.
ghost use Rattle.std.specs.Prelude.{◌≡◌};
ghost use Rattle.http_replies.specs.Statuses.{refusal_status};

use http::StatusCode;

/// Returns the status of an error code: 404 if a name has no text (60), 409 for a put that would make a cycle (61) or
/// if no stamp is left (62), 503 for out of memory (1), else 422.
pub(crate) fn refusal_status(code: u8) -> StatusCode
    ensures { result ≡ refusal_status code }
{
    match code {
        60 => StatusCode::NOT_FOUND,
        61 | 62 => StatusCode::CONFLICT,
        1 => StatusCode::SERVICE_UNAVAILABLE,
        _ => StatusCode::UNPROCESSABLE_ENTITY,
    }
}
