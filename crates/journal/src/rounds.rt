//! Rounds of requests: answered, recorded by one record and one sync, and only then replied to.
ghost use Rattle.std.specs.Prelude.{◌≡◌, ◌++◌, [], List, OnOk, is_ok};
ghost use Rattle.journal.specs.Events.{Event, Runs};
ghost use Rattle.journal.specs.Steps.{Chain, Done, replies_of, requests_of, updates_of};
ghost use Rattle.journal.specs.Exchanges.{replies_in, requests_in};
ghost use Rattle.journal.specs.Rounds.{AreReplies, IsCommitOf, IsRoundOf};
ghost use Rattle.journal.specs.inner.Calls.{CommitsAndSends, Records};

use crate::device::{Device, DeviceFailed, Machine};
use crate::fault::CommitFault;
use crate::replica::{Answering, Replica};

/// A request, and memory for its reply.
#[derive(Drop)]
pub struct Exchange {
    /// The request.
    pub request: Vec<u8>,
    /// The reply.
    pub reply: Vec<u8>,
}

/// Serves a round: answers the requests in order, records the updates of all of them by [`commit`], and sends the
/// replies in order. A round of queries makes no call of the file.
///
/// # Errors
///
/// The site must stop.
///
/// - `NoMemory`: the record could not be allocated; no call was made.
/// - `Failed`: the record could not be appended or synced, and no reply was sent; or a reply could not be sent.
pub fn serve_round<M: Machine, R: Answering>(
    machine: &mut M,
    replica: &mut R,
    round: &mut [Exchange],
    entry: &mut Vec<u8>,
) -> Result<(), CommitFault>
    ensures setting { R.setting replica.new ≡ R.setting replica.old }
    ensures asked { requests_in round.new ≡ requests_in round.old }
    ensures recorded { OnOk result (R.unrecorded replica.new ≡ []) }
    ensures served { (done : List Done) × (events : List Event) × (requests_of done ≡ requests_in round.old)
        × (replies_of done ≡ replies_in round.new)
        × Chain (R.steps (R.setting replica.old)) done (R.store replica.old) (R.store replica.new)
        × Runs M.does machine.old events machine.new
        × IsRoundOf (R.states (R.setting replica.old)) (R.unrecorded replica.old ++ updates_of done) (replies_of done)
        events result }
{
    answer_all(replica, round);
    commit_and_send(machine, replica, round, entry)
}

/// Answers the requests of a round in order. Their updates are unrecorded: [`commit`] them before a reply is sent.
pub fn answer_all<R: Answering>(replica: &mut R, round: &mut [Exchange])
    ensures setting { R.setting replica.new ≡ R.setting replica.old }
    ensures asked { requests_in round.new ≡ requests_in round.old }
    ensures answered { (done : List Done) × (requests_of done ≡ requests_in round.old)
        × (replies_of done ≡ replies_in round.new)
        × Chain (R.steps (R.setting replica.old)) done (R.store replica.old) (R.store replica.new)
        × (R.unrecorded replica.new ≡ R.unrecorded replica.old ++ updates_of done) }
{
    for exchange in round.iter_mut() {
        replica.answer(&exchange.request, &mut exchange.reply);
    }
}

/// Records the unrecorded updates, and then sends the replies of a round in order.
fn commit_and_send<M: Machine, R: Replica>(
    machine: &mut M,
    replica: &mut R,
    round: &[Exchange],
    entry: &mut Vec<u8>,
) -> Result<(), CommitFault>
    ensures setting { R.setting replica.new ≡ R.setting replica.old }
    ensures store { R.store replica.new ≡ R.store replica.old }
    ensures recorded { OnOk result (R.unrecorded replica.new ≡ []) }
    ensures calls { CommitsAndSends (R.states (R.setting replica.old)) M.does (R.unrecorded replica.old)
        (replies_in round.now) machine.old machine.new result }
{
    commit(machine, replica, entry)?;
    send_all(machine, round)?;
    Ok(())
}

/// Records the unrecorded updates: appends their record to the file, and waits until it is on the disk.
///
/// # Errors
///
/// The site must stop: no reply to a request whose updates were unrecorded may be sent.
///
/// - `NoMemory`: an allocation failed; no call was made.
/// - `Failed`: the record could not be appended or synced. A crash leaves the record, whole, or not.
pub fn commit<D: Device, R: Replica>(
    device: &mut D,
    replica: &mut R,
    entry: &mut Vec<u8>,
) -> Result<(), CommitFault>
    ensures setting { R.setting replica.new ≡ R.setting replica.old }
    ensures store { R.store replica.new ≡ R.store replica.old }
    ensures recorded { OnOk result (R.unrecorded replica.new ≡ []) }
    ensures calls { (events : List Event) × Runs D.does device.old events device.new
        × IsCommitOf (R.states (R.setting replica.old)) (R.unrecorded replica.old) events result }
{
    replica.put_entry(entry)?;
    record(device, entry)?;
    Ok(())
}

/// Appends an entry to the file, and waits until it is on the disk.
pub(crate) fn record<D: Device>(device: &mut D, entry: &[u8]) -> Result<(), DeviceFailed>
    ensures { Records D.does entry.now device.old device.new (is_ok result) }
{
    if entry.is_empty() {
        return Ok(());
    }
    device.append(entry)?;
    device.sync()?;
    Ok(())
}

/// Sends the replies of a round in order, up to the first that cannot be sent.
fn send_all<M: Machine>(machine: &mut M, round: &[Exchange]) -> Result<(), DeviceFailed>
    ensures { (events : List Event) × Runs M.does machine.old events machine.new
        × AreReplies (replies_in round.now) events (is_ok result) }
{
    for exchange in round {
        machine.reply(&exchange.reply)?;
    }
    Ok(())
}
