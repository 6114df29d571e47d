//! Theorems about entries, joins and stores. The functions are no-ops.
ghost use Rattle.std.specs.Prelude.{◌≡◌, ◌↔◌, ◌≤◌, ◌<◌, ◌⊎◌, ◌++◌, ◌∷◌, [], true, ℕ, List, Option, Some, max};
ghost use Rattle.std.specs.Prelude.{string_bytes};
ghost use Rattle.std.specs.Option.{option_map};
ghost use Rattle.std.specs.Ordering.{nat_cmp};
ghost use Rattle.std.specs.String.{string_cmp};
ghost use Rattle.std.specs.declared.alloc.Global.{Global};
ghost use Rattle.std.specs.declared.string.String.{String};
ghost use Rattle.std.specs.List.{Contains};
ghost use Rattle.std.specs.Cmp.{IsTotalOrder};
ghost use Rattle.std.specs.FinMap.{IsAntisymmetric, get};
ghost use Rattle.values.specs.declared.name.Name.{Name};
ghost use Rattle.values.specs.declared.entity_uid.EntityUid.{EntityUid};
ghost use Rattle.values.specs.Names.{name_cmp, uid_cmp};
ghost use Rattle.stamped_store.specs.Joins.{IsJoin, IsLeastAbove};
ghost use Rattle.stamped_store.specs.EntryOrder.{PlainEntry, plain_entry, entry_cmp, greater_entry, greater};
ghost use Rattle.stamped_store.specs.EntryOrder.{entry_at_most, site_cmp};
ghost use Rattle.stamped_store.specs.SiteNames.{SiteTestIsExact, SiteNamesAreTexts, SiteDigitsAreNames, five_digits};
ghost use Rattle.stamped_store.specs.JoinMaps.{IsBelowAt, joined_at, value_at, taken};
ghost use Rattle.stamped_store.specs.Greatest.{greatest_count};
ghost use Rattle.stamped_store.specs.Store.{Store, Update, updates, store_of, plain_below, IsStoreBelow, IsStoreJoin};
ghost use Rattle.stamped_store.specs.Store.{joined_stores, issue, issued, policy_name, entity_name};
ghost use Rattle.stamped_store.specs.Store.{StoreEntries, IsStoreOf, concrete_entries, joined_entries, first_entries};
ghost use Rattle.stamped_store.specs.Reading.{IsEntryRead, AreEntriesRead};
ghost use Rattle.stamped_store.specs.Contents.{text_under, policies_of, entities_of};
ghost use Rattle.stamped_store.specs.Deltas.{Summary, stamp_of, summary_of, is_unseen, delta, HaveOneEntryForAStamp};
ghost use Rattle.stamped_store.specs.Raised.{NumberedUpdate, NumberedStore, IsNumberedStoreOf, numbered_store_of};
ghost use Rattle.stamped_store.specs.Raised.{IsNumberedJoin, joined_numbered, numbered_updates, HaveSiteNumbers};
ghost use Rattle.stamped_store.specs.Raised.{raise, raise_store};

use crate::{Entry, Join, Readings};

/// Proves that the order of entries is total and antisymmetric, and that the greater of two entries is their join:
/// associative, commutative, idempotent, and their least upper bound. No-op.
pub fn entries_are_joined()
    ensures total { IsTotalOrder entry_cmp }
    ensures exact { IsAntisymmetric entry_cmp }
    ensures associative { (a b c : PlainEntry)
        → greater_entry (greater_entry a b) c ≡ greater_entry a (greater_entry b c) }
    ensures commutative { (a b : PlainEntry) → greater_entry a b ≡ greater_entry b a }
    ensures idempotent { (a : PlainEntry) → greater_entry a a ≡ a }
    ensures least { (a b : PlainEntry) → IsLeastAbove (λ x y. plain_below x y ≡ true) a b (greater_entry a b) }
{}

/// Proves that the greater of two entries with parsed forms is their join. The parsed forms do not matter: entries are
/// joined by their stamps and bodies, and are at most each other if and only if these are equal. No-op.
pub fn read_entries_are_joined<P: Drop>()
    ensures laws { IsJoin (λ (a b : Entry P). entry_at_most a b ≡ true) greater }
    ensures plain { (a b : Entry P) → plain_entry (greater a b) ≡ greater_entry (plain_entry a) (plain_entry b) }
    ensures equal { (a b : Entry P) → (entry_at_most a b ≡ true) × (entry_at_most b a ≡ true)
        ↔ (plain_entry a ≡ plain_entry b) }
{}

/// Proves that the order of each implementation of `Join` is a preorder, in which the join of two values is a least
/// upper bound. The join is associative, commutative and idempotent if values that are at most each other count as
/// equal. No-op.
pub fn joins_have_laws<V: Join>()
    ensures { IsJoin (λ a b. V.is_below a b ≡ true) V.joined }
{}

/// Proves the laws of [`joins_have_laws`] for the join of maps from keys to values with a join. No-op.
pub fn stamped_are_joined<K: Ord, V: Join>()
    ensures { IsJoin (IsBelowAt {K = K} V.is_below) (joined_at V.joined) }
{}

/// Proves that a set of updates has exactly one store, the join of the updates. No-op.
///
/// - `greatest`, `only`: this store has, for each name, the greatest entry that the updates have for it, and is the
///   only one that does.
/// - `same_updates`, `grouped`: order, repeats and grouping of the updates do not matter.
/// - `own`: a store is the store of its own updates.
/// - `union`: the store of two lists of updates together is the join of their stores.
pub fn updates_have_one_store()
    ensures greatest { (us : List Update) → IsStoreOf us (store_of us) }
    ensures only { (us : List Update) (s : Store) → IsStoreOf us s → s ≡ store_of us }
    ensures same_updates { (us vs : List Update) → ((u : Update) → Contains us u ↔ Contains vs u)
        → store_of us ≡ store_of vs }
    ensures own { (s : Store) → store_of (updates s) ≡ s }
    ensures grouped { (us vs : List Update) → store_of (updates (store_of us) ++ vs) ≡ store_of (us ++ vs) }
    ensures union { (us vs : List Update) → IsStoreJoin (store_of us) (store_of vs) (store_of (us ++ vs)) }
{}

/// Proves that the join of stores is associative, commutative and idempotent, and the only least upper bound; and that
/// stores that are at most each other are equal. No-op.
pub fn stores_are_joined()
    ensures associative { (s t u : Store) → joined_stores (joined_stores s t) u ≡ joined_stores s (joined_stores t u) }
    ensures commutative { (s t : Store) → joined_stores s t ≡ joined_stores t s }
    ensures idempotent { (s : Store) → joined_stores s s ≡ s }
    ensures least { (s t : Store) → IsStoreJoin s t (joined_stores s t) }
    ensures only { (s t j : Store) → IsStoreJoin s t j → j ≡ joined_stores s t }
    ensures equal { (s t : Store) → IsStoreBelow s t → IsStoreBelow t s → s ≡ t }
{}

/// Proves how stamps are issued. No-op.
///
/// - `greatest`, `reached`: the greatest count is at least that of each entry, and is that of some entry unless it is
///   0.
/// - `joined`: the greatest count of a join is the greater of the greatest counts of the two stores.
/// - `stays`: an entry with the stamp that a store issues wins at its name when that store applies it.
pub fn stamps_are_issued()
    ensures greatest { (s : Store) (u : Update) → Contains (updates s) u → u.1.count ≤ greatest_count s }
    ensures reached { (s : Store) → (greatest_count s ≡ 0)
        ⊎ ((u : Update) × Contains (updates s) u × (u.1.count ≡ greatest_count s)) }
    ensures joined { (s t : Store) → greatest_count (joined_stores s t) ≡ max (greatest_count s) (greatest_count t) }
    ensures stays { (s : Store) (name : Name) (site : List ℕ) (body : Option (List ℕ))
        → get (store_of (updates s ++ (name, issued (issue s site) body) ∷ [])) name
        ≡ Some (issued (issue s site) body) }
{}

/// Proves that the policies and the entities of a store are exactly those whose name has a text, each with that text.
/// No-op.
pub fn contents_are_the_texts()
    ensures policies { (s : Store) (id text : List ℕ) → Contains (policies_of s) (id, text)
        ↔ (text_under s (policy_name id) ≡ Some text) }
    ensures entities { (s : Store) (uid : EntityUid) (text : List ℕ) → Contains (entities_of s) (uid, text)
        ↔ (text_under s (entity_name uid) ≡ Some text) }
{}

/// Proves what a delta has, and that it may replace the whole store in a merge. No-op.
///
/// - `news`: a delta has exactly the entries of its store whose names the summary lacks or has with a smaller stamp.
/// - `summary`: a summary has the stamp of each entry of its store.
/// - `whole`: let `old` be a store that is at most `s`, such as `s` or an earlier state of it. Let entries of `old` and
///   of a store `t` with the same name and the same stamp be equal. Then the delta of `t` against the summary of `old`,
///   joined into `s`, has the same effect as the whole of `t`.
pub fn deltas_are_joined()
    ensures news { (t : Store) (m : Summary) (q : Name) (e : PlainEntry) → (get (delta t m) q ≡ Some e)
        ↔ ((get t q ≡ Some e) × (is_unseen (value_at name_cmp m q) (Some e) ≡ true)) }
    ensures summary { (s : Store) (q : Name) → value_at name_cmp (summary_of s) q ≡ option_map stamp_of (get s q) }
    ensures whole { (s old t : Store) → IsStoreBelow old s → HaveOneEntryForAStamp old t
        → joined_stores s (delta t (summary_of old)) ≡ joined_stores s t }
{}

/// Proves that a store keeps the property that each text has a permitted parsed form ([`Readings`]). No-op.
///
/// The empty store has the property. A store that has it keeps it if an entry is applied that has a permitted parsed
/// form or is a tombstone. The merge of two stores with the property has it too, even if only the first entries of the
/// second are merged.
pub fn readings_are_preserved<P: Drop, E: Drop, R: Readings<P, E>>()
    ensures empty { (r : R) → AreEntriesRead {P = P} {E = E} (R.reads_policy r) (R.reads_entity r)
        (concrete_entries [] []) }
    ensures policy { (r : R) (k : StoreEntries P E) (id : String Global) (entry : Entry P)
        → AreEntriesRead (R.reads_policy r) (R.reads_entity r) k
        → IsEntryRead (R.reads_policy r (string_bytes id)) entry
        → AreEntriesRead (R.reads_policy r) (R.reads_entity r)
        (concrete_entries (taken string_cmp greater k.policies id entry) k.entities) }
    ensures entity { (r : R) (k : StoreEntries P E) (uid : EntityUid) (entry : Entry E)
        → AreEntriesRead (R.reads_policy r) (R.reads_entity r) k → IsEntryRead (R.reads_entity r uid) entry
        → AreEntriesRead (R.reads_policy r) (R.reads_entity r)
        (concrete_entries k.policies (taken uid_cmp greater k.entities uid entry)) }
    ensures merged { (r : R) (k l : StoreEntries P E) → AreEntriesRead (R.reads_policy r) (R.reads_entity r) k
        → AreEntriesRead (R.reads_policy r) (R.reads_entity r) l
        → AreEntriesRead (R.reads_policy r) (R.reads_entity r) (joined_entries k l) }
    ensures cut_short { (r : R) (n : ℕ) (k l : StoreEntries P E)
        → AreEntriesRead (R.reads_policy r) (R.reads_entity r) k
        → AreEntriesRead (R.reads_policy r) (R.reads_entity r) l
        → AreEntriesRead (R.reads_policy r) (R.reads_entity r) (joined_entries k (first_entries n l)) }
{}

/// Proves that the test `is_site_name` accepts exactly the names of sites, and that such a name is valid UTF-8. The
/// five digits of a number below 100,000 are such a name; these names are ordered as the numbers are, and are equal
/// only for equal numbers. No-op.
pub fn site_names_are_recognized()
    ensures tested { SiteTestIsExact }
    ensures texts { SiteNamesAreTexts }
    ensures digits { SiteDigitsAreNames }
    ensures ordered { (m n : ℕ) → m < 100000 → n < 100000
        → site_cmp (five_digits m) (five_digits n) ≡ nat_cmp m n }
    ensures apart { (m n : ℕ) → m < 100000 → n < 100000 → five_digits m ≡ five_digits n → m ≡ n }
{}

/// Proves that stores of numbered sites correspond to those of named sites. Raising updates or a store replaces each
/// site's number by its five digits. No-op.
///
/// - `greatest`, `only`: updates of numbered sites have exactly one store, as those of named sites do.
/// - `least`: the join of two stores of numbered sites is their least upper bound.
///
/// If each site's number is from 1 to 65,535 (`updates` needs no such condition):
///
/// - `store`, `updates`: the store of raised updates is the raised store, which has exactly the raised updates.
/// - `joined`, `join`: the raise of a join is the join of the raised stores.
pub fn stores_are_raised()
    ensures greatest { (us : List NumberedUpdate) → IsNumberedStoreOf us (numbered_store_of us) }
    ensures only { (us : List NumberedUpdate) (s : NumberedStore) → IsNumberedStoreOf us s → s ≡ numbered_store_of us }
    ensures least { (s t : NumberedStore) → IsNumberedJoin s t (joined_numbered s t) }
    ensures store { (us : List NumberedUpdate) → HaveSiteNumbers us
        → store_of (raise us) ≡ raise_store (numbered_store_of us) }
    ensures updates { (s : NumberedStore) → updates (raise_store s) ≡ raise (numbered_updates s) }
    ensures joined { (s t : NumberedStore) → HaveSiteNumbers (numbered_updates s)
        → HaveSiteNumbers (numbered_updates t)
        → raise_store (joined_numbered s t) ≡ joined_stores (raise_store s) (raise_store t) }
    ensures join { (s t j : NumberedStore) → HaveSiteNumbers (numbered_updates s)
        → HaveSiteNumbers (numbered_updates t) → IsNumberedJoin s t j
        → IsStoreJoin (raise_store s) (raise_store t) (raise_store j) }
{}
