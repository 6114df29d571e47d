//! The parts of a request, and what each may be.
ghost use Rattle.std.specs.Prelude.{◌≡◌, IsTrue};
ghost use Rattle.http_streams.specs.Parts.{is_host, is_method, is_target};

use http::Method;

/// A request to be sent. Its text is one request: no part except the body has a line end, a blank or a control byte.
///
/// [`is_method`], [`is_host`] and [`is_target`] test parts before an `Ask` is made of them.
#[derive(Clone, Copy)]
pub struct Ask<'a> {
    /// The method, a token.
    pub method: &'a Method,
    /// The value of the field `Host`: visible ASCII bytes, possibly none.
    pub host: &'a [u8],
    /// The target: one or more visible ASCII bytes.
    pub path: &'a [u8],
    /// The body, any bytes. If it is absent, the request announces no length, and `cut_request` rejects such a PUT or
    /// POST with 411 (length required).
    pub body: Option<&'a [u8]>,
    pub ghost is_method: { IsTrue (is_method method.now) },
    pub ghost is_host: { IsTrue (is_host host.now) },
    pub ghost is_target: { IsTrue (is_target path.now) },
}

/// Returns whether the method is a token, as an [`Ask`] requires.
#[tactic(auto, unfolding(httparse::specs::Grammar::is_token_byte))]
pub fn is_method(method: &Method) -> bool
    ensures { result ≡ is_method method.now }
{
    httparse::is_token(method.as_str().as_bytes())
}

/// Returns whether the bytes may be the target of an [`Ask`]: one or more visible ASCII bytes.
pub fn is_target(bytes: &[u8]) -> bool
    ensures { result ≡ is_target bytes.now }
{
    !bytes.is_empty() && is_host(bytes)
}

/// Returns whether the bytes may be the host of an [`Ask`]: visible ASCII bytes, possibly none (RFC 9110, section 7.2).
pub fn is_host(bytes: &[u8]) -> bool
    ensures { result ≡ is_host bytes.now }
{
    for byte in bytes {
        if !byte.is_ascii_graphic() {
            return false;
        }
    }
    true
}
