//! Compacts a journal: the records of the whole store in place of all records.
ghost use Rattle.stamped_store.specs.Store.{updates};
ghost use Rattle.journal.specs.Compaction.{Compacts};

use crate::device::Device;
use crate::fault::CommitFault;
use crate::replica::Replica;

/// Replaces the file by one of the records of the replica's store, all on the disk. No updates may be unrecorded.
///
/// # Errors
///
/// - `NoMemory`: the records could not be allocated; no call was made, and the site may go on.
/// - `Failed`: the file was replaced or not; the site must stop.
pub fn compact<D: Device, R: Replica>(
    device: &mut D,
    replica: &R,
    records: &mut Vec<u8>,
) -> Result<(), CommitFault>
    ensures { Compacts (R.states (R.setting replica.now)) D.does (updates (R.store replica.now)) records.new.items
        device.old device.new result }
{
    replica.put_state(records)?;
    device.replace(records)?;
    Ok(())
}
