//! Writes requests.
ghost use Rattle.std.specs.Prelude.{◌≡◌, ◌++◌, IfOk, OnOk, decimal};
ghost use Rattle.http_streams.specs.RequestText.{body_bytes, length_field, request_start, request_text};

use crate::parts::Ask;
use itoa::Buffer;
use std::alloc::{AllocError, Global};

/// Returns the request line, and the next line up to the value of `Host`.
#[tactic(auto, unfolding(crate::specs::RequestText::request_start))]
fn request_start(alloc: Global, ask: &Ask<'_>) -> Result<Vec<u8>, AllocError>
    ensures { IfOk result (λ out. out.items ≡ request_start ask.now.method.now ask.now.path.now) }
{
    let mut out = Vec::from_slice(alloc, ask.method.as_str().as_bytes())?;
    out.extend_from_slice(b" ")?;
    out.extend_from_slice(ask.path)?;
    out.extend_from_slice(b" HTTP/1.1\r\nHost: ")?;
    Ok(out)
}

/// Appends the number's digits.
fn push_number(out: &mut Vec<u8>, number: usize) -> Result<(), AllocError>
    ensures { OnOk result (out.new.items ≡ out.old.items ++ decimal number) }
{
    out.extend_from_slice(Buffer::new().format(number).as_bytes())
}

/// Appends the field Content-Length, if there is a body.
#[tactic(auto, unfolding(crate::specs::RequestText::length_field))]
fn push_length(out: &mut Vec<u8>, body: Option<&[u8]>) -> Result<(), AllocError>
    ensures { OnOk result (out.new.items ≡ out.old.items ++ length_field body.entry) }
{
    let Some(bytes) = body else {
        return Ok(());
    };
    out.extend_from_slice(b"\r\nContent-Length: ")?;
    push_number(out, bytes.len())?;
    Ok(())
}

/// Appends the body, if there is one.
#[tactic(auto, unfolding(crate::specs::RequestText::body_bytes))]
fn push_body(out: &mut Vec<u8>, body: Option<&[u8]>) -> Result<(), AllocError>
    ensures { OnOk result (out.new.items ≡ out.old.items ++ body_bytes body.entry) }
{
    match body {
        Some(bytes) => out.extend_from_slice(bytes),
        None => Ok(()),
    }
}

/// Returns the bytes of a request with its body (RFC 9112, section 3). The request asks to close the connection after
/// the reply.
///
/// # Errors
///
/// - `AllocError`: an allocation failed.
#[tactic(auto, unfolding(crate::specs::RequestText::request_text))]
pub fn request_text(alloc: Global, ask: &Ask<'_>) -> Result<Vec<u8>, AllocError>
    ensures { IfOk result (λ out. out.items ≡ request_text ask.now) }
{
    let mut out = request_start(alloc, ask)?;
    out.extend_from_slice(ask.host)?;
    push_length(&mut out, ask.body)?;
    out.extend_from_slice(b"\r\nConnection: close\r\n\r\n")?;
    push_body(&mut out, ask.body)?;
    Ok(out)
}
