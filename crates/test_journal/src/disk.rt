//! A device in memory, one call of which fails as planned.
ghost use Rattle.std.specs.Prelude.{◌≡◌, ◌++◌, ℕ, List};
ghost use Rattle.journal.specs.Moments.{Moment, Follows};
ghost use Rattle.test_journal.specs.Disk.{moment_of};

use crate::copies::push_copy;
use journal::{Device, DeviceFailed, Machine};
use std::alloc::Global;

/// A file in memory, how many of its bytes are on the disk, and the replies that were sent.
#[derive(Drop)]
pub struct Disk {
    alloc: Global,
    file: Vec<u8>,
    durable: usize,
    replies: Vec<Vec<u8>>,
    /// The number of calls before the one that fails.
    left: usize,
    /// How many bytes the failing call appends, at most.
    part: usize,
}

impl Disk {
    /// Creates a device whose file has these bytes, all on the disk. The call after `left` others fails; if it appends,
    /// then after `part` bytes.
    pub fn new(alloc: Global, file: Vec<u8>, left: usize, part: usize) -> Disk {
        let durable = file.len();
        Disk {
            alloc,
            file,
            durable,
            replies: Vec::new(alloc),
            left,
            part,
        }
    }

    /// Returns the bytes of the file.
    pub fn file(&self) -> &[u8] {
        &self.file
    }

    /// Returns how many bytes are on the disk.
    pub fn durable(&self) -> usize {
        self.durable
    }

    /// Returns the number of replies that were sent.
    pub fn sent(&self) -> usize {
        self.replies.len()
    }
}

/// Returns whether this call is the one that fails, and counts it.
fn fails(left: &mut usize) -> bool {
    let now = *left == 0;
    *left = left.wrapping_sub(1);
    now
}

/// Appends a first part of the bytes, none if memory does not suffice.
fn append_part(file: &mut Vec<u8>, bytes: &[u8], part: usize) -> bool
    ensures { (front back : List ℕ) × (bytes.now ≡ front ++ back) × (file.new.items ≡ file.old.items ++ front) }
{
    let part = part.min(bytes.len());
    match file.extend_from_slice(&bytes[..part]) {
        Ok(()) => true,
        Err(_) => false,
    }
}

impl Device for Disk {
    ghost does = { λ old event new. (since : List Moment) × Follows (moment_of old) event since (moment_of new) };

    fn append(&mut self, bytes: &[u8]) -> Result<(), DeviceFailed> {
        if fails(&mut self.left) {
            let _ = append_part(&mut self.file, bytes, self.part);
            return Err(DeviceFailed);
        }
        match self.file.extend_from_slice(bytes) {
            Ok(()) => Ok(()),
            Err(_) => Err(DeviceFailed),
        }
    }

    fn sync(&mut self) -> Result<(), DeviceFailed> {
        if fails(&mut self.left) {
            return Err(DeviceFailed);
        }
        self.durable = self.file.len();
        Ok(())
    }

    fn cut(&mut self, len: usize) -> Result<(), DeviceFailed> {
        if fails(&mut self.left) {
            self.durable = len.min(self.durable);
            return Err(DeviceFailed);
        }
        self.file.truncate(len);
        self.durable = self.file.len();
        Ok(())
    }

    fn replace(&mut self, bytes: &[u8]) -> Result<(), DeviceFailed> {
        if fails(&mut self.left) {
            return Err(DeviceFailed);
        }
        match Vec::from_slice(self.alloc, bytes) {
            Ok(file) => {
                self.file = file;
                self.durable = self.file.len();
                Ok(())
            }
            Err(_) => Err(DeviceFailed),
        }
    }
}

impl Machine for Disk {
    fn reply(&mut self, text: &[u8]) -> Result<(), DeviceFailed> {
        if fails(&mut self.left) {
            return Err(DeviceFailed);
        }
        match push_copy(self.alloc, &mut self.replies, text) {
            Ok(()) => Ok(()),
            Err(_) => Err(DeviceFailed),
        }
    }
}
