//! The ranges of the names and stamps in a site's store.
ghost use Rattle.std.specs.Prelude.{◌≡◌, ◌≤◌, ◌<◌, ◌++◌, ◌∷◌, [], ℕ, List, IsSome};
ghost use Rattle.values.specs.declared.name.Name.{Name};
ghost use Rattle.site_store.specs.stamped_store.Contents.{text_under};
ghost use Rattle.site_store.specs.stamped_store.Deltas.{Summary, delta, summary_of};
ghost use Rattle.site_store.specs.stamped_store.Greatest.{greatest_count};
ghost use Rattle.site_store.specs.stamped_store.SiteNames.{IsSiteName};
ghost use Rattle.site_store.specs.stamped_store.Store.{Store, Update, updates, store_of, issue};
ghost use Rattle.sync_messages.specs.sync_format.Summaries.{AreStamped, IsName, IsStamped};
ghost use Rattle.sync_messages.specs.sync_format.Updates.{AreInRange, stamped};

use site_store::{COUNT_MAX, deltas_are_joined, stamps_are_issued, updates_have_one_store};

/// Proves that the names and stamps of a store stay in their ranges. No-op.
///
/// The names and stamps of the empty store are in their ranges. If the names and stamps of a store are in their ranges:
///
/// - so are those of the store after the join of an update whose name and stamp are in their ranges;
/// - the names and stamps in a delta of the store and in its summary are in their ranges;
/// - the greatest count of the store is at most 10^18;
/// - each name that has a text is in its range.
///
/// If the greatest count of a store is less than 10^18, the stamp that a site issues next is in its range.
pub(crate) fn ranges_stay()
    ensures empty { AreInRange (updates (store_of [])) }
    ensures joined { (s t : Store) (u : Update) → AreInRange (updates s) → IsStamped (stamped u)
        → t ≡ store_of (updates s ++ u ∷ []) → AreInRange (updates t) }
    ensures news { (s : Store) (m : Summary) → AreInRange (updates s) → AreInRange (updates (delta s m)) }
    ensures summary { (s : Store) → AreInRange (updates s) → AreStamped (summary_of s) }
    ensures counted { (s : Store) → AreInRange (updates s) → greatest_count s ≤ COUNT_MAX }
    ensures named { (s : Store) (q : Name) → AreInRange (updates s) → IsSome (text_under s q) → IsName q }
    ensures issued { (s : Store) (n : List ℕ) (q : Name) → IsName q → greatest_count s < COUNT_MAX → IsSiteName n
        → IsStamped (q, issue s n) }
{
    updates_have_one_store();
    deltas_are_joined();
    stamps_are_issued();
}
