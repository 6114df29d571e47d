//! Theorems about the lines of a log. The functions are no-ops.
ghost use Rattle.std.specs.Prelude.{◌≡◌, ◌++◌, ℕ, List, Ok};
ghost use Rattle.http.specs.declared.status.StatusCode.{StatusCode};
ghost use Rattle.json_words.specs.Json.{json_of};
ghost use Rattle.http_service.specs.Routes.{route_stated};
ghost use Rattle.http_replies.specs.site.Inputs.{Authorize};
ghost use Rattle.http_service.specs.LogLines.{IsLogLine, decision_tail, head_text, log_line, text_of, unread_line};
ghost use Rattle.http_service.specs.OneLine.{HasNoLineFeed, IsOneLine};

/// Proves that lines cannot be forged. Whatever method, target and body a request has, its line ends with its only line
/// feed, if the reply has no line feed. The line for rejected bytes also ends with its only line feed. No-op.
pub fn lines_have_one_line_feed()
    ensures line { (method target body : List ℕ) (status : StatusCode) (reply line : List ℕ) → HasNoLineFeed reply
        → line ≡ log_line method target body status reply → IsOneLine line }
    ensures unread { (status : StatusCode) (line : List ℕ) → line ≡ unread_line status → IsOneLine line }
{}

/// Proves that the line of each decision names principal, action and resource as the request does, and has the
/// members of the reply. No-op.
pub fn decision_lines_name_requests()
    ensures { (method target body reply line : List ℕ) → route_stated method target body ≡ Ok (Authorize body)
        → IsLogLine method target body 200 reply line
        → line ≡ head_text (text_of method) (text_of target) ++ decision_tail 200 (json_of body) reply }
{}
