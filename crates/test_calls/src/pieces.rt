//! A line and bytes, built from pieces. Only `ended` reports a failed allocation, so no caller checks each piece.
use crate::keeping::whole;
use plain::NoMemory;
use std::alloc::Global;

/// A line of text, built from pieces.
#[derive(Drop)]
pub(crate) struct Line {
    text: String,
    is_whole: bool,
}

impl Line {
    pub(crate) fn new(alloc: Global) -> Line {
        Line {
            text: String::new(alloc),
            is_whole: true,
        }
    }

    pub(crate) fn is_empty(&self) -> bool {
        self.text.is_empty()
    }

    pub(crate) fn push(&mut self, piece: &str) {
        let is_pushed = self.text.push_str(piece).is_ok();
        self.is_whole = self.is_whole & is_pushed;
    }

    pub(crate) fn push_char(&mut self, letter: char) {
        let is_pushed = self.text.push(letter).is_ok();
        self.is_whole = self.is_whole & is_pushed;
    }

    /// Appends a piece, or records that its allocation failed.
    pub(crate) fn push_made(&mut self, made: Result<String, NoMemory>) {
        match made {
            Ok(piece) => self.push(piece.as_str()),
            Err(_) => self.is_whole = false,
        }
    }

    /// Returns the text, if no allocation failed.
    pub(crate) fn ended(self) -> Result<String, NoMemory> {
        whole(self.text, self.is_whole)
    }
}

/// Bytes, built from pieces.
#[derive(Drop)]
pub(crate) struct Bytes {
    bytes: Vec<u8>,
    is_whole: bool,
}

impl Bytes {
    pub(crate) fn new(alloc: Global) -> Bytes {
        Bytes {
            bytes: Vec::new(alloc),
            is_whole: true,
        }
    }

    pub(crate) fn push(&mut self, piece: &[u8]) {
        let is_pushed = self.bytes.extend_from_slice(piece).is_ok();
        self.is_whole = self.is_whole & is_pushed;
    }

    /// Returns the bytes, if no allocation failed.
    pub(crate) fn ended(self) -> Result<Vec<u8>, NoMemory> {
        whole(self.bytes, self.is_whole)
    }
}
