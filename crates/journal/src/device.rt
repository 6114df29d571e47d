//! The device on which a journal is kept, and the clients that get replies.
ghost use Rattle.std.specs.Prelude.{is_ok};
ghost use Rattle.journal.specs.Events.{Event, append, cut, replace, reply, sync};

/// The error of a call of a device.
#[derive(Clone, Copy)]
pub struct DeviceFailed;

/// A file that is appended to.
///
/// A method's contract says which call was made and whether it succeeded. What the file has after each call, and what a
/// crash leaves of it, is defined over the list of calls (specs/Moments).
pub trait Device {
    // `does old event new` holds if `event` may happen in the state `old` and lead to `new`.
    ghost does: { Self → Event → Self → Type 0 };

    /// Appends bytes to the file. They may reach the disk at any time, or never.
    ///
    /// # Errors
    ///
    /// - `DeviceFailed`: only a first part of the bytes was appended.
    fn append(&mut self, bytes: &[u8]) -> Result<(), DeviceFailed>
        ensures { does self.old (append bytes.now (is_ok result)) self.new };

    /// Waits until all bytes of the file are on the disk.
    ///
    /// # Errors
    ///
    /// - `DeviceFailed`: no more bytes are known to be on the disk than before.
    fn sync(&mut self) -> Result<(), DeviceFailed>
        ensures { does self.old (sync (is_ok result)) self.new };

    /// Cuts the file after its first `len` bytes, and waits until that is on the disk.
    ///
    /// # Errors
    ///
    /// - `DeviceFailed`: the file was cut or not.
    fn cut(&mut self, len: usize) -> Result<(), DeviceFailed>
        ensures { does self.old (cut len (is_ok result)) self.new };

    /// Replaces the file by one of these bytes, all on the disk. Until then a crash leaves the old file.
    ///
    /// # Errors
    ///
    /// - `DeviceFailed`: the file was replaced or not.
    fn replace(&mut self, bytes: &[u8]) -> Result<(), DeviceFailed>
        ensures { does self.old (replace bytes.now (is_ok result)) self.new };
}

/// A device with clients, which get replies.
pub trait Machine: Device {
    /// Sends a reply: from now on its bytes may reach the client.
    ///
    /// # Errors
    ///
    /// - `DeviceFailed`: the reply may have reached the client, whole or in part, or not.
    fn reply(&mut self, text: &[u8]) -> Result<(), DeviceFailed>
        ensures { Self.does self.old (reply text.now (is_ok result)) self.new };
}
