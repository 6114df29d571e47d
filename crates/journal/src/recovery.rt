//! Opens a journal: recovers a replica from what a crash left of the file, and makes the file whole.
ghost use Rattle.std.specs.Prelude.{◌≡◌, ◌∷◌, ◌++◌, List, ℕ, IfOk, IfErr, OnOk, MatchBool, MatchOption, is_ok};
ghost use Rattle.std.specs.List.{AllByRecursion};
ghost use Rattle.stamped_store.specs.Store.{Update, store_of, updates};
ghost use Rattle.journal.specs.Events.{Event, Runs};
ghost use Rattle.journal.specs.Moments.{IsUnchecked};
ghost use Rattle.journal.specs.Lines.{IsLine, whole_lines};
ghost use Rattle.journal.specs.Recovery.{HasChecked, IsOpeningOf, IsRecovered, IsRecoveryFault};
ghost use Rattle.journal.specs.inner.Calls.{Begins, Settles};
ghost use Rattle.journal.specs.inner.LineFaults.{IsLineFault};

use crate::device::{Device, DeviceFailed};
use crate::fault::RecoveryFault;
use crate::replica::{RecordFault, Replica};
use crate::rounds::record;

/// Applies the records of a file, given by its bytes as they were read, and makes the file whole: syncs it, since what
/// was read may not be on the disk, cuts off the part behind the records, and writes the header if there is no record.
///
/// After an earlier process failed to sync, the system may report bytes as synced that are not on the disk. So compact
/// the journal after it was opened, which writes all of it anew.
///
/// # Errors
///
/// - `NoRecord`, `Damaged`: no crash left this file; it is unchanged.
/// - `NoMemory`: an allocation failed. The file has the same records.
/// - `Failed`: a call of the device failed. Each crash leaves a file with the same records.
pub fn open<D: Device, R: Replica>(
    device: &mut D,
    replica: &mut R,
    file: &[u8],
    entry: &mut Vec<u8>,
) -> Result<(), RecoveryFault>
    ensures setting { R.setting replica.new ≡ R.setting replica.old }
    ensures unrecorded { R.unrecorded replica.new ≡ R.unrecorded replica.old }
    ensures opened { (events : List Event) × Runs D.does device.old events device.new
        × IsOpeningOf (R.states (R.setting replica.old)) R.checked (R.store replica.old) (R.store replica.new) file.now
        events result }
{
    let end = recover(replica, file)?;
    settle(device, end)?;
    if end > 0 {
        return Ok(());
    }
    begin(device, replica, entry)
}

/// Syncs the file, and cuts it after its first `end` bytes.
fn settle<D: Device>(device: &mut D, end: usize) -> Result<(), DeviceFailed>
    ensures { Settles D.does end device.old device.new (is_ok result) }
{
    device.sync()?;
    device.cut(end)?;
    Ok(())
}

/// Writes the header.
fn begin<D: Device, R: Replica>(
    device: &mut D,
    replica: &R,
    entry: &mut Vec<u8>,
) -> Result<(), RecoveryFault>
    ensures { Begins (R.states (R.setting replica.now)) D.does device.old device.new result }
{
    replica.put_header(entry)?;
    record(device, entry)?;
    Ok(())
}

/// Applies the updates of the records of a file, in order: of its whole lines up to the first without a right checksum.
/// Returns the length of these lines. What follows is a torn end.
///
/// # Errors
///
/// - `NoMemory`: an allocation failed.
/// - `NoRecord`: a line with a right checksum is not a record.
/// - `Damaged`: behind the first line without a right checksum, a line has one.
pub fn recover<R: Replica>(replica: &mut R, file: &[u8]) -> Result<usize, RecoveryFault>
    ensures setting { R.setting replica.new ≡ R.setting replica.old }
    ensures unrecorded { R.unrecorded replica.new ≡ R.unrecorded replica.old }
    ensures ok { IfOk result (λ end. IsRecovered (R.states (R.setting replica.old)) R.checked (R.store replica.old)
        (R.store replica.new) file.now end) }
    ensures refused { IsRecoveryFault (R.states (R.setting replica.old)) R.checked file.now result }
{
    let mut rest = file;
    while let Some((line, after)) = first_line(rest) {
        if !replica.is_checked(line) {
            return torn_at(replica, after, file.len() - rest.len());
        }
        if let Err(fault) = take_line(replica, line, file.len() - rest.len()) {
            return Err(fault);
        }
        rest = after;
    }
    Ok(file.len() - rest.len())
}

/// Returns the offset of a line without a right checksum, if no line of the bytes `after` it has one.
fn torn_at<R: Replica>(replica: &R, after: &[u8], at: usize) -> Result<usize, RecoveryFault>
    ensures ok { OnOk result (AllByRecursion (IsUnchecked R.checked) (whole_lines after.now)) }
    ensures same { IfOk result (λ end. end ≡ at) }
    ensures err { IfErr result (λ fault. (fault ≡ RecoveryFault.Damaged at)
        × HasChecked R.checked (whole_lines after.now)) }
{
    if has_checked(replica, after) {
        return Err(RecoveryFault::Damaged(at));
    }
    Ok(at)
}

/// Returns whether some whole line has a right checksum.
fn has_checked<R: Replica>(replica: &R, bytes: &[u8]) -> bool
    ensures { MatchBool result (HasChecked R.checked (whole_lines bytes.now))
        (AllByRecursion (IsUnchecked R.checked) (whole_lines bytes.now)) }
{
    let mut rest = bytes;
    while let Some((line, behind)) = first_line(rest) {
        if replica.is_checked(line) {
            return true;
        }
        rest = behind;
    }
    false
}

/// Applies the updates of a line, which begins at an offset.
fn take_line<R: Replica>(replica: &mut R, line: &[u8], at: usize) -> Result<(), RecoveryFault>
    ensures setting { R.setting replica.new ≡ R.setting replica.old }
    ensures unrecorded { R.unrecorded replica.new ≡ R.unrecorded replica.old }
    ensures ok { OnOk result ((us : List Update) × R.states (R.setting replica.old) line.now us
        × (R.store replica.new ≡ store_of (updates (R.store replica.old) ++ us))) }
    ensures refused { IsLineFault (R.states (R.setting replica.old)) line.now at result }
{
    match replica.take(line) {
        Ok(()) => Ok(()),
        Err(RecordFault::NoMemory) => Err(RecoveryFault::NoMemory),
        Err(RecordFault::NoRecord) => Err(RecoveryFault::NoRecord(at)),
    }
}

/// Returns the first line of some bytes and what follows its line feed; `None` if they have no line feed.
pub fn first_line(bytes: &[u8]) -> Option<(&[u8], &[u8])>
    ensures { MatchOption result (IsLine bytes.now)
        (λ p. IsLine p.0.now × (bytes.now ≡ p.0.now ++ 10 ∷ p.1.now)) }
{
    for (i, b) in bytes.iter().enumerate() {
        if *b == b'\n' {
            return Some((&bytes[..i], &bytes[i + 1..]));
        }
    }
    None
}
