//! A replica of notes: a request of one byte is a note, which is put into the store; another request changes nothing.
ghost use Rattle.std.specs.Prelude.{◌≡◌, ◌∷◌, ◌++◌, [], List, ℕ, OnOk, OnErr, MatchOption, map, true};
ghost use Rattle.stamped_store.specs.Store.{Update, store_of, updates};
ghost use Rattle.journal.specs.Lines.{IsLine};
ghost use Rattle.test_journal.specs.Notes.{IsNotes, is_marked, marked, note, noted, one_list};

use journal::{Answering, RecordFault, Replica};
use std::alloc::{AllocError, Global};

/// The notes that were applied, in order, and those of them that have no record.
#[derive(Drop)]
pub struct Notes {
    notes: Vec<u8>,
    pending: Vec<u8>,
}

impl Notes {
    /// Creates a replica without notes.
    pub fn new(alloc: Global) -> Notes
        ensures { noted result ≡ store_of [] }
    {
        Notes {
            notes: Vec::new(alloc),
            pending: Vec::new(alloc),
        }
    }

    /// Returns the notes that were applied.
    pub fn notes(&self) -> &[u8] {
        &self.notes
    }
}

/// Appends a note to both lists; to none if memory does not suffice.
fn note_down(notes: &mut Vec<u8>, pending: &mut Vec<u8>, b: u8) -> Result<(), AllocError>
    ensures notes { OnOk result (notes.new.items ≡ notes.old.items ++ b ∷ []) }
    ensures pending { OnOk result (pending.new.items ≡ pending.old.items ++ b ∷ []) }
    ensures err { OnErr result (notes.new.items ≡ notes.old.items) }
    ensures same { OnErr result (pending.new.items ≡ pending.old.items) }
{
    let len = pending.len();
    pending.push(b)?;
    match notes.push(b) {
        Ok(()) => Ok(()),
        Err(_) => {
            pending.truncate(len);
            Err(AllocError)
        }
    }
}

/// Returns whether some bytes have no line feed.
fn is_line(bytes: &[u8]) -> bool
    ensures { result ≡ true → IsLine bytes.now }
{
    for b in bytes {
        if *b == b'\n' {
            return false;
        }
    }
    true
}

/// Puts the record of some notes, with a line feed, into `entry`; fails if one of them is a line feed.
fn put_record(notes: &[u8], entry: &mut Vec<u8>) -> Result<(), AllocError>
    ensures record { OnOk result (entry.new.items ≡ (35 ∷ notes.now) ++ 10 ∷ []) }
    ensures line { OnOk result (IsLine notes.now) }
{
    if !is_line(notes) {
        return Err(AllocError);
    }
    entry.clear();
    entry.push(b'#')?;
    entry.extend_from_slice(notes)?;
    entry.push(b'\n')?;
    Ok(())
}

/// Returns the notes of a record; `None` if the line is not a record.
fn notes_of(line: &[u8]) -> Option<&[u8]>
    ensures { MatchOption result ((notes : List ℕ) → line.now ≡ 35 ∷ notes → ⊥) (λ notes. line.now ≡ 35 ∷ notes.now) }
{
    match line.split_first() {
        Some((first, notes)) => { if *first == b'#' { Some(notes) } else { None } }
        None => None,
    }
}

/// Applies a request: a note, if it is one byte and memory suffices. Returns whether it did.
fn put(replica: &mut Notes, request: &[u8]) -> bool
    ensures { (us : List Update) × (noted replica.new ≡ store_of (updates (noted replica.old) ++ us))
        × (map note replica.new.pending.items ≡ map note replica.old.pending.items ++ us) }
{
    match request.first() {
        Some(b) => match note_down(&mut replica.notes, &mut replica.pending, *b) {
            Ok(()) => true,
            Err(_) => false,
        },
        None => false,
    }
}

impl Replica for Notes {
    type Setting = ();

    ghost setting = { λ n. tt };

    ghost store = { noted };

    ghost unrecorded = { λ n. map note n.pending.items };

    ghost states = { λ x line us. IsNotes line us };

    ghost checked = { is_marked };

    ghost records_are_checked = { λ x line us h. marked line us h };

    ghost one_meaning = { λ x line us vs h k. one_list line us vs h k };

    fn put_entry(&mut self, entry: &mut Vec<u8>) -> Result<(), AllocError> {
        entry.clear();
        if self.pending.is_empty() {
            return Ok(());
        }
        put_record(&self.pending, entry)?;
        self.pending.clear();
        Ok(())
    }

    /// Puts a record of no notes.
    fn put_header(&self, entry: &mut Vec<u8>) -> Result<(), AllocError> {
        put_record(&[], entry)
    }

    /// Fails: the tests do not compact.
    fn put_state(&self, _entry: &mut Vec<u8>) -> Result<(), AllocError> {
        Err(AllocError)
    }

    fn is_checked(&self, line: &[u8]) -> bool {
        line.first() == Some(&b'#')
    }

    fn take(&mut self, line: &[u8]) -> Result<(), RecordFault> {
        match notes_of(line) {
            Some(notes) => match self.notes.extend_from_slice(notes) {
                Ok(()) => Ok(()),
                Err(_) => Err(RecordFault::NoMemory),
            },
            None => Err(RecordFault::NoRecord),
        }
    }
}

impl Answering for Notes {
    ghost steps = { λ x s request us reply t. t ≡ store_of (updates s ++ us) };

    ghost applied = { λ x s request us reply t h. h };

    fn answer(&mut self, request: &[u8], reply: &mut Vec<u8>) {
        reply.clear();
        if put(self, request) {
            let _ = reply.extend_from_slice(b"noted");
        }
    }
}
