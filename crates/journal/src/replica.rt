//! A replicated store of which a journal is kept.
ghost use Rattle.std.specs.Prelude.{◌≡◌, ◌∷◌, ◌++◌, [], ℕ, Bool, true, List, OnOk, OnErr, Err};
ghost use Rattle.stamped_store.specs.Store.{Store, Update, store_of, updates};
ghost use Rattle.journal.specs.declared.replica.RecordFault.{RecordFault};
ghost use Rattle.journal.specs.declared.replica.RecordFault.TheVariants.{NoRecord};
ghost use Rattle.journal.specs.Lines.{IsLine};
ghost use Rattle.journal.specs.Records.{AreRecordsOf, IsEntryOf};

use std::alloc::AllocError;

/// The reason why a record was not applied.
#[derive(Clone, Copy)]
pub enum RecordFault {
    /// An allocation failed.
    NoMemory,
    /// The bytes are not a record of this replica.
    NoRecord,
}

/// A replica of a store, generic in its records.
pub trait Replica {
    /// What the records and steps of a replica depend on and no request changes, such as its schema and its name.
    type Setting;

    // The setting.
    ghost setting: { Self → Self.Setting };

    // The store.
    ghost store: { Self → Store };

    // The updates that were applied since the last record, in order, with repeats.
    ghost unrecorded: { Self → List Update };

    // `states x line us` holds if, in the setting `x`, the record `line` states the updates `us`.
    ghost states: { Self.Setting → List ℕ → List Update → Type 0 };

    // Tests whether a line has a right checksum.
    ghost checked: { List ℕ → Bool };

    /// Puts the entry of the unrecorded updates into `entry`: their record with a line feed; nothing without updates.
    ///
    /// # Errors
    ///
    /// - `AllocError`: an allocation failed; the updates are still unrecorded.
    fn put_entry(&mut self, entry: &mut Vec<u8>) -> Result<(), AllocError>
        ensures setting { setting self.new ≡ setting self.old }
        ensures store { store self.new ≡ store self.old }
        ensures ok { OnOk result (IsEntryOf (states (setting self.old)) (unrecorded self.old) entry.new.items) }
        ensures recorded { OnOk result (unrecorded self.new ≡ []) }
        ensures err { OnErr result (unrecorded self.new ≡ unrecorded self.old) };

    /// Puts the header, a record of no updates that names the setting, with a line feed into `entry`.
    ///
    /// # Errors
    ///
    /// - `AllocError`: an allocation failed.
    fn put_header(&self, entry: &mut Vec<u8>) -> Result<(), AllocError>
        ensures { OnOk result ((line : List ℕ) × IsLine line × states (setting self.now) line []
            × (entry.new.items ≡ line ++ 10 ∷ [])) };

    /// Puts the records of a journal of the whole store, such as the header and one record, into `entry`.
    ///
    /// # Errors
    ///
    /// - `AllocError`: an allocation failed.
    fn put_state(&self, entry: &mut Vec<u8>) -> Result<(), AllocError>
        ensures { OnOk result (AreRecordsOf (states (setting self.now)) (updates (store self.now)) entry.new.items) };

    /// Returns whether a line has a right checksum.
    fn is_checked(&self, line: &[u8]) -> bool
        ensures { result ≡ checked line.now };

    /// Applies the updates of a record, given without its line feed.
    ///
    /// # Errors
    ///
    /// - `NoMemory`: an allocation failed. The first of the updates may be applied: drop the replica.
    /// - `NoRecord`: the bytes are not a record of this replica. Nothing is applied.
    fn take(&mut self, line: &[u8]) -> Result<(), RecordFault>
        ensures setting { setting self.new ≡ setting self.old }
        ensures unrecorded { unrecorded self.new ≡ unrecorded self.old }
        ensures ok { OnOk result ((us : List Update) × states (setting self.old) line.now us
            × (store self.new ≡ store_of (updates (store self.old) ++ us))) }
        ensures err { result ≡ Err NoRecord → store self.new ≡ store self.old }
        ensures refused { result ≡ Err NoRecord → (us : List Update) → states (setting self.old) line.now us → ⊥ };

    // A record has a right checksum.
    ghost records_are_checked: { (x : Self.Setting) (line : List ℕ) (us : List Update) → states x line us
        → checked line ≡ true };

    // A record states one list of updates.
    ghost one_meaning: { (x : Self.Setting) (line : List ℕ) (us vs : List Update) → states x line us → states x line vs
        → us ≡ vs };
}

/// A replica that answers requests, which are bytes.
pub trait Answering: Replica {
    // `steps x s request us reply t` holds if, in the setting `x` and the store `s`, the request may be answered by the
    // reply, where the updates `us` are applied and lead to the store `t`.
    ghost steps: { Self.Setting → Store → List ℕ → List Update → List ℕ → Store → Type 0 };

    /// Answers a request. Puts the reply into `reply`.
    fn answer(&mut self, request: &[u8], reply: &mut Vec<u8>)
        ensures setting { Self.setting self.new ≡ Self.setting self.old }
        ensures step { (us : List Update)
            × steps (Self.setting self.old) (Self.store self.old) request.now us reply.new.items (Self.store self.new)
            × (Self.unrecorded self.new ≡ Self.unrecorded self.old ++ us) };

    // A step applies its updates.
    ghost applied: { (x : Self.Setting) (s : Store) (request : List ℕ) (us : List Update) (reply : List ℕ) (t : Store)
        → steps x s request us reply t → t ≡ store_of (updates s ++ us) };
}
