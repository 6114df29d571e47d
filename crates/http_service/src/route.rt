//! What requests ask for.

use http::StatusCode;
use http_replies::Input;

/// What a request asks for.
#[derive(Clone, Copy)]
pub enum Route<'a> {
    /// The request has this input for the site.
    Input(Input<'a>),
    /// There is no such operation. The status is 404 if the path is unknown, whatever the method, and 405 if the path
    /// does not have this method.
    Status(StatusCode),
}
