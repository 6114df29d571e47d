//! Lines and bytes, built from pieces.
use itoa::Buffer;
use plain::NoMemory;
use std::alloc::Global;
use std::fmt::Display;

/// The outcome of a case that has none of the forms of the crate's head comment.
pub(crate) const BAD_ROW: &[u8] = b"bad row";

/// The outcome of a case for which an allocation fails.
pub(crate) const NO_MEMORY: &[u8] = b"no memory";

/// Separates the parts of a case, and the parts of its outcome.
pub(crate) const BETWEEN: &str = " ¶ ";

/// Bytes, built from pieces. Only [`Line::ended`] reports a failed allocation, so that no caller checks each piece.
#[derive(Drop)]
pub(crate) struct Line {
    alloc: Global,
    bytes: Vec<u8>,
    has_parts: bool,
    has_messages: bool,
    is_whole: bool,
}

/// Returns a value, or `NoMemory` if it is not whole.
fn whole<T: Drop>(value: T, is_whole: bool) -> Result<T, NoMemory> {
    if is_whole { Ok(value) } else { Err(NoMemory) }
}

impl Line {
    /// Creates an empty line.
    pub(crate) fn new(alloc: Global) -> Line {
        Line {
            alloc,
            bytes: Vec::new(alloc),
            has_parts: false,
            has_messages: false,
            is_whole: true,
        }
    }

    /// Returns the number of bytes.
    pub(crate) fn len(&self) -> usize {
        self.bytes.len()
    }

    /// Appends bytes.
    pub(crate) fn push(&mut self, piece: &[u8]) {
        let is_pushed = self.bytes.extend_from_slice(piece).is_ok();
        self.is_whole = self.is_whole & is_pushed;
    }

    /// Appends the digits of a number.
    pub(crate) fn push_number(&mut self, number: u64) {
        let mut digits = Buffer::new();
        self.push(digits.format(number).as_bytes());
    }

    /// Appends a value as its `Display` shows it.
    pub(crate) fn push_shown(&mut self, shown: &impl Display) {
        match format!(in self.alloc; "{shown}") {
            Ok(text) => self.push(text.as_bytes()),
            Err(_) => self.fail(),
        }
    }

    /// Makes the line print the message of an error in place of its code.
    pub(crate) fn print_messages(&mut self) {
        self.has_messages = true;
    }

    /// Returns whether the line prints messages.
    pub(crate) fn has_messages(&self) -> bool {
        self.has_messages
    }

    /// Notes a failed allocation.
    pub(crate) fn fail(&mut self) {
        self.is_whole = false;
    }

    /// Begins a part of the outcome: appends what separates it from the part before it.
    pub(crate) fn begin_part(&mut self) {
        if self.has_parts {
            self.push(BETWEEN.as_bytes());
        }
        self.has_parts = true;
    }

    /// Returns the bytes if no allocation failed.
    pub(crate) fn ended(self) -> Result<Vec<u8>, NoMemory> {
        whole(self.bytes, self.is_whole)
    }
}
