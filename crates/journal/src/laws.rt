//! Theorems about journals. The functions are no-ops.
ghost use Rattle.std.specs.Prelude.{◌≡◌, ◌≢◌, ◌⊎◌, ◌<◌, ◌∷◌, ◌++◌, [], List, ℕ, Bool, true, false, Err};
ghost use Rattle.std.specs.List.{AllByRecursion, Contains};
ghost use Rattle.stamped_store.specs.Store.{Store, Update, issue, store_of, updates};
ghost use Rattle.journal.specs.declared.fault.RecoveryFault.{RecoveryFault};
ghost use Rattle.journal.specs.declared.fault.RecoveryFault.TheVariants.{Damaged, NoRecord};
ghost use Rattle.journal.specs.Events.{Event, replace};
ghost use Rattle.journal.specs.Moments.{IsLeftBy, Moment, Passes, appended, replied};
ghost use Rattle.journal.specs.Records.{AreRecordsOf, Holds, IsAtRest};
ghost use Rattle.journal.specs.Steps.{Chain, Done, replies_of, updates_of};
ghost use Rattle.journal.specs.Survivors.{IsEither, IsSafe, IsSame, IsTornOnce};
ghost use Rattle.journal.specs.Rounds.{AreRounds, steps_of};
ghost use Rattle.journal.specs.Recovery.{IsOpening, IsRecovered, IsRecoveryFault};

use crate::replica::{Answering, Replica};

/// Proves that rounds are safe at each moment, whatever the calls return: whatever file a crash leaves, it holds the
/// updates from before, and those of a first part of the steps, among them each step whose reply was sent, and nothing
/// else. At most one record is torn. If all calls succeeded, all updates are on the disk, and all replies were sent.
/// No-op.
pub fn rounds_are_safe<R: Replica>()
    ensures { (x : R.Setting) (first : List Update) (rounds : List (List Done)) (events : List Event) (done : Bool)
        (m n : Moment) (since : List Moment) → IsAtRest (R.states x) m first → AreRounds (R.states x) rounds events done
        → Passes m events since n
        → AllByRecursion (IsSafe (R.states x) R.checked first (steps_of rounds) m.replies) (m ∷ since)
        × AllByRecursion IsTornOnce (m ∷ since)
        × (done ≡ true → IsAtRest (R.states x) n (first ++ updates_of (steps_of rounds))
        × (n.replies ≡ m.replies ++ replies_of (steps_of rounds))) }
{}

/// Proves what a crash leaves at a safe moment. The steps `done` led from the store `s` of the updates `first` to `t`.
/// Whatever updates a file that the crash leaves holds, they are `first` and those of the first steps, among them each
/// step whose reply was sent; and these steps alone lead from `s` to the store of what is found. So a site that
/// restarts from the file goes on with a run in which the lost steps, whose replies no one saw, never were. No-op.
pub fn acknowledged_changes_survive<R: Answering>()
    ensures { (x : R.Setting) (first : List Update) (done : List Done) (before : List (List ℕ)) (m : Moment)
        (file : List ℕ) (found : List Update) (s t : Store) → s ≡ store_of first → Chain (R.steps x) done s t
        → IsSafe (R.states x) R.checked first done before m → IsLeftBy R.checked m file
        → Holds (R.states x) R.checked file found
        → (sent kept lost : List Done) × (done ≡ sent ++ (kept ++ lost)) × (m.replies ≡ before ++ replies_of sent)
        × (found ≡ first ++ updates_of (sent ++ kept)) × Chain (R.steps x) (sent ++ kept) s (store_of found) }
{}

/// Proves that runs join: a run from where another ended is one run with it. No-op.
pub fn runs_join<R: Answering>()
    ensures { (x : R.Setting) (one two : List Done) (s m t : Store) → Chain (R.steps x) one s m
        → Chain (R.steps x) two m t → Chain (R.steps x) (one ++ two) s t }
{}

/// Proves that the stamp that a site issues from the store of some updates is not one of theirs, even if an update lost
/// to a greater one: it has a greater count than each. No-op.
pub fn stamps_are_new()
    ensures { (found : List Update) (site : List ℕ) (u : Update) → Contains found u
        → u.1.count < (issue (store_of found) site).count }
{}

/// Proves that a moment is not safe at which the reply to a change was sent before the change was synced, even if its
/// whole entry was appended. No-op.
pub fn replies_wait_for_the_sync<R: Replica>()
    ensures { (x : R.Setting) (first : List Update) (d : Done) (entry : List ℕ) (m : Moment)
        → IsAtRest (R.states x) m first → d.applied ≢ []
        → IsSafe (R.states x) R.checked first (d ∷ []) m.replies (replied d.reply (appended entry m)) → ⊥ }
{}

/// Proves that opening a journal loses nothing, whatever its calls return. The store becomes that of the updates that
/// the file holds. At each moment the file is as it was, or a crash leaves one that holds the same updates. If all
/// calls succeeded, the file is at rest. No-op.
pub fn opening_loses_nothing<R: Replica>()
    ensures { (x : R.Setting) (us : List Update) (end : ℕ) (events : List Event) (done : Bool) (m n : Moment)
        (since : List Moment) (s t : Store) → Holds (R.states x) R.checked m.file us
        → IsRecovered (R.states x) R.checked s t m.file end → IsOpening (R.states x) end events done
        → Passes m events since n
        → (t ≡ store_of (updates s ++ us)) × AllByRecursion (λ k. (k ≡ m) ⊎ IsSame (R.states x) R.checked us k) since
        × (done ≡ true → IsAtRest (R.states x) n us × (n.replies ≡ m.replies)) }
{}

/// Proves that a file that a crash leaves is not refused: one with a fault does not hold any updates. No-op.
pub fn refused_files_hold_nothing<R: Replica>()
    ensures unread { (x : R.Setting) (file : List ℕ) (at : ℕ) (us : List Update)
        → IsRecoveryFault (R.states x) R.checked {T = ℕ} file (Err (NoRecord at))
        → Holds (R.states x) R.checked file us → ⊥ }
    ensures damaged { (x : R.Setting) (file : List ℕ) (at : ℕ) (us : List Update)
        → IsRecoveryFault (R.states x) R.checked {T = ℕ} file (Err (Damaged at))
        → Holds (R.states x) R.checked file us → ⊥ }
{}

/// Proves that compaction loses nothing, whatever its call returns: at each moment a crash leaves a file that holds the
/// old updates or those of their store, and both have the same store. No-op.
pub fn compaction_loses_nothing<R: Replica>()
    ensures same { (s : Store) → store_of (updates s) ≡ s }
    ensures either { (x : R.Setting) (us : List Update) (bytes : List ℕ) (done : Bool) (m n : Moment)
        (since : List Moment) → IsAtRest (R.states x) m us → AreRecordsOf (R.states x) (updates (store_of us)) bytes
        → Passes m (replace bytes done ∷ []) since n
        → AllByRecursion (IsEither (R.states x) R.checked us (updates (store_of us))) since × (n.replies ≡ m.replies)
        × (IsAtRest (R.states x) n us ⊎ IsAtRest (R.states x) n (updates (store_of us)))
        × (done ≡ true → IsAtRest (R.states x) n (updates (store_of us))) }
{}
