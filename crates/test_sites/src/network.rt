//! Messages of the errors that end a stream of requests, and of those that end one request.
use crate::line::{BAD_ROW, Line};
use http_service::{FetchFault, LoggedFault, StreamFault};

/// Appends the message of the error that `text` names: an error of a served stream if `text` begins with `served`, else
/// of a request. Appends `bad row` if `text` names no such error.
pub(crate) fn push_network(text: &str, line: &mut Line) {
    match text {
        "served read" => line.push_shown(&StreamFault::Read),
        "served write" => line.push_shown(&StreamFault::Write),
        "served log" => line.push_shown(&LoggedFault::Log),
        "served memory" => line.push_shown(&StreamFault::NoMemory),
        "read" => line.push_shown(&FetchFault::Read),
        "write" => line.push_shown(&FetchFault::Write),
        "bad reply" => line.push_shown(&FetchFault::BadReply),
        "ended" => line.push_shown(&FetchFault::Ended),
        "memory" => line.push_shown(&FetchFault::NoMemory),
        _ => line.push(BAD_ROW),
    }
}
