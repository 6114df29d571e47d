//! The result of a call from C.

/// The result of a call: a status, and the length of the reply's body.
///
/// The body is at the beginning of the memory that the call was given, if that memory is long enough.
#[repr(C)]
#[derive(Clone, Copy)]
pub struct CallResult {
    /// 200; 404, 409 or 422 for an error; 503 if out of memory; 0 if no site is open.
    pub status: u32,
    /// The number of bytes of the body.
    pub length: usize,
}
