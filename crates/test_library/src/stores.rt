//! Tests of stores: look-ups and joins.
use crate::shared::{ended, finished, holds, uid_of};
use plain::{NoMemory, Text, both};
use stamped_store::{Entry, ReadText, SiteName, Stamp, Stamped, StampedStore, laws};
use std::alloc::{AllocError, Global};
use std::collections::btree_map::Iter;
use std::process::Abort;
use values::EntityUid;

type Store = StampedStore<usize, usize>;

const PERMIT: &str = "permit (principal, action, resource);";

const FORBID: &str = "forbid (principal, action, resource);";

// The count of a stamp, the name of its site, and a text.
type Row<'a> = (u64, &'a str, &'a str);

// The name of an entry.
trait Named {
    fn id(&self) -> &str;

    // Returns whether this is the entry's name, where a name after `@` is an entity's, and any other a policy's.
    fn is_called(&self, name: &str) -> bool;
}

impl Named for String {
    fn id(&self) -> &str {
        self.as_str()
    }

    fn is_called(&self, name: &str) -> bool {
        name == self.as_str()
    }
}

impl Named for EntityUid {
    fn id(&self) -> &str {
        self.id.as_str()
    }

    fn is_called(&self, name: &str) -> bool {
        name.strip_prefix('@') == Some(self.id.as_str())
    }
}

// Returns the body of an entry: the text, with its length as its parsed form; a tombstone if the text is empty.
fn body(alloc: Global, text: &str) -> Result<Option<ReadText<usize>>, NoMemory> {
    if text.is_empty() {
        return Ok(None);
    }
    let read = text.len();
    let text = Text::from_str(alloc, text)?;
    Ok(Some(ReadText { text, read }))
}

// Returns `name` as a site name; if it is not a site name, the name of site number 0.
fn site(name: &str) -> SiteName {
    match SiteName::parse(name) {
        Some(site) => site,
        None => SiteName::from_number(0),
    }
}

fn stamp(row: Row<'_>) -> Stamp {
    Stamp {
        count: row.0,
        site: site(row.1),
    }
}

fn entry(alloc: Global, row: Row<'_>) -> Result<Entry<usize>, NoMemory> {
    let body = body(alloc, row.2)?;
    let stamp = stamp(row);
    Ok(Entry { stamp, body })
}

// Returns the text of an entry, which is empty for a tombstone.
fn text_of(entry: &Entry<usize>) -> &str {
    match &entry.body {
        Some(read) => read.text.as_str(),
        None => "",
    }
}

fn is_text_of(entry: Option<&Entry<usize>>, text: &str) -> bool {
    match entry {
        Some(entry) => text_of(entry) == text,
        None => false,
    }
}

fn uid(alloc: Global, id: &str) -> Result<EntityUid, NoMemory> {
    uid_of(alloc, "User", id)
}

// Returns the result, or `NoMemory` for an error.
fn done<T: Drop, E: Drop>(tried: Result<T, E>) -> Result<T, NoMemory> {
    match tried {
        Ok(value) => Ok(value),
        Err(_) => Err(AllocError),
    }
}

fn put_policy(alloc: Global, store: &mut Store, id: &str, row: Row<'_>) -> Result<(), NoMemory> {
    let (id, entry) = both(String::from_str(alloc, id), entry(alloc, row))?;
    done(store.take_policy(id, entry))
}

fn put_entity(alloc: Global, store: &mut Store, id: &str, row: Row<'_>) -> Result<(), NoMemory> {
    let (uid, entry) = both(uid(alloc, id), entry(alloc, row))?;
    done(store.take_entity(uid, entry))
}

// Puts an entry under a name, where a name after `@` is an entity's, and any other a policy's.
fn put(alloc: Global, store: &mut Store, name: &str, row: Row<'_>) -> Result<(), NoMemory> {
    match name.strip_prefix('@') {
        Some(id) => put_entity(alloc, store, id, row),
        None => put_policy(alloc, store, name, row),
    }
}

fn fill(alloc: Global, store: &mut Store, row: Row<'_>, names: &str) -> Result<(), NoMemory> {
    for name in names.split(' ') {
        put(alloc, store, name, row)?;
    }
    Ok(())
}

// Returns a store with an entry of this stamp and text at each of these names.
fn filled(alloc: Global, row: Row<'_>, names: &str) -> Result<Store, NoMemory> {
    let mut store = StampedStore::new(alloc);
    let done = fill(alloc, &mut store, row, names);
    finished(store, done)
}

// Like `filled`; after a failed allocation tries once more.
fn filled_at_last(alloc: Global, row: Row<'_>, names: &str) -> Result<Store, NoMemory> {
    match filled(alloc, row, names) {
        Ok(store) => Ok(store),
        Err(_) => filled(alloc, row, names),
    }
}

// Two lists of names, policies before entities: those in a store, and those merged into it. Each name of the first has
// count 1 and `PERMIT`, each of the second count 9 and `FORBID`.
#[derive(Clone, Copy)]
struct Merge<'a> {
    own: &'a str,
    other: &'a str,
}

// Returns whether a key is one of the first `count` of these names.
fn is_among<K: Named>(names: &str, count: usize, key: &K) -> bool {
    let mut left = count;
    for name in names.split(' ') {
        if left == 0 {
            return false;
        }
        if key.is_called(name) {
            return true;
        }
        left -= 1;
    }
    false
}

// Returns whether `entry` is the entry of a key after a join with exactly the first `taken` names of the other store.
fn is_joined<K: Named>(merge: Merge<'_>, taken: usize, key: &K, entry: &Entry<usize>) -> bool {
    if is_among(merge.other, taken, key) {
        return entry.stamp == stamp((9, "2", "")) && text_of(entry) == FORBID;
    }
    is_among(merge.own, usize::MAX, key)
        && entry.stamp == stamp((1, "1", ""))
        && text_of(entry) == PERMIT
}

// Returns whether each of these entries is as [`is_joined`] demands.
fn are_joined<K: Named>(
    merge: Merge<'_>,
    taken: usize,
    entries: Iter<'_, K, Entry<usize>>,
) -> bool {
    for (key, entry) in entries {
        if !is_joined(merge, taken, key, entry) {
            return false;
        }
    }
    true
}

fn has_name(names: &str, name: &str) -> bool {
    for one in names.split(' ') {
        if one == name {
            return true;
        }
    }
    false
}

// Returns the number of names in the first list, or among the first `taken` of the second.
fn count_joined(merge: Merge<'_>, taken: usize) -> usize {
    let mut count = merge.own.split(' ').count();
    for name in merge.other.split(' ').take(taken) {
        count = count.saturating_add(usize::from(!has_name(merge.own, name)));
    }
    count
}

// Returns whether exactly the first `taken` names of the other store are joined.
fn is_joined_up_to(store: &Store, merge: Merge<'_>, taken: usize) -> bool {
    let count = store
        .policies()
        .len()
        .saturating_add(store.entities().len());
    count == count_joined(merge, taken)
        && are_joined(merge, taken, store.policies())
        && are_joined(merge, taken, store.entities())
        && store.greatest_count() == if taken == 0 { 1 } else { 9 }
}

// Merges the names `other` into a store.
fn merge_again(alloc: Global, store: &mut Store, other: &str) -> Result<(), NoMemory> {
    done(store.merge(filled_at_last(alloc, (9, "2", FORBID), other)?))
}

// Merges; if an allocation fails, tries once more. Fails the test unless the failed merge joined exactly the first
// names.
fn merge_at_last(
    rt: &impl Abort,
    alloc: Global,
    store: &mut Store,
    merge: Merge<'_>,
) -> Result<(), NoMemory> {
    let other = filled_at_last(alloc, (9, "2", FORBID), merge.other)?;
    match store.merge(other) {
        Ok(()) => Ok(()),
        Err(short) => {
            let is_cut = short.taken < merge.other.split(' ').count();
            holds(
                rt,
                is_cut && is_joined_up_to(store, merge, short.taken),
                "the first names alone are joined",
            );
            merge_again(alloc, store, merge.other)
        }
    }
}

// Merges into `store`. Fails the test unless all names are then joined.
fn merge_into(
    rt: &impl Abort,
    alloc: Global,
    store: &mut Store,
    merge: Merge<'_>,
) -> Result<(), NoMemory> {
    merge_at_last(rt, alloc, store, merge)?;
    holds(
        rt,
        is_joined_up_to(store, merge, usize::MAX),
        "all names are joined",
    );
    Ok(())
}

// Merges the names `other` into a store of the names `own`. Fails the test as [`merge_into`] does.
fn merged(rt: &impl Abort, alloc: Global, own: &str, other: &str) -> Result<(), NoMemory> {
    let mut store = filled_at_last(alloc, (1, "1", PERMIT), own)?;
    let came = merge_into(rt, alloc, &mut store, Merge { own, other });
    ended(store, came)
}

// The store that is merged into another has five names. A map allocates with its first name and its sixteenth, so the
// first merge may fail after three names, the second before its first name, the third nowhere, the fourth after one
// name or three.
#[test]
fn a_refused_merge_joins_the_first_names(rt: HostRuntime) -> Result<(), NoMemory> {
    let alloc = rt.alloc();
    merged(&rt, alloc, "a b c d e", "d e f @x @y")?;
    merged(&rt, alloc, "@v @w @x @y @z", "d e f @x @y")?;
    merged(&rt, alloc, "a b c @x @z", "d e f @x @y")?;
    merged(&rt, alloc, "a b c g h i j k l m n o p q", "d e f @x @y")
}

// Returns whether look-ups find what the store of this test has.
fn is_looked_up(store: &Store, uid: &EntityUid) -> bool {
    store.greatest_count() == 4
        && store.issue(site("7")) == stamp((5, "7", ""))
        && store.get_policy("c").is_none()
        && is_text_of(store.get_entity(uid), PERMIT)
}

// Returns whether the entries have these ids, in this order.
fn have_ids<K: Named>(entries: Iter<'_, K, Entry<usize>>, ids: &str) -> bool {
    let mut ids = ids.split(' ');
    for (name, _) in entries {
        if ids.next() != Some(name.id()) {
            return false;
        }
    }
    ids.next().is_none()
}

// Returns whether the names of both kinds are in order.
fn is_iterated(store: &Store) -> bool {
    have_ids(store.policies(), "a b") && have_ids(store.entities(), "x y")
}

fn is_asked(rt: &impl Abort, store: &Store, uid: &EntityUid) {
    holds(rt, is_looked_up(store, uid), "look-ups");
    holds(rt, is_iterated(store), "the names in order");
}

fn stored(alloc: Global, count: u64, text: &str) -> Result<Store, NoMemory> {
    filled(alloc, (count, "1", text), "b a @y @x")
}

#[test]
fn a_store_is_looked_up_and_gone_over(rt: HostRuntime) -> Result<(), NoMemory> {
    let alloc = rt.alloc();
    let kept = both(stored(alloc, 4, PERMIT), uid(alloc, "x"))?;
    is_asked(&rt, &kept.0, &kept.1);
    ended(kept, Ok(()))
}

fn is_below(one: &Store, later: &Store) -> bool {
    one.below(later) && !later.below(one)
}

#[test]
fn a_store_is_below_a_later_one(rt: HostRuntime) -> Result<(), NoMemory> {
    let alloc = rt.alloc();
    let kept = both(stored(alloc, 4, PERMIT), stored(alloc, 5, ""))?;
    holds(&rt, is_below(&kept.0, &kept.1), "it is below");
    ended(kept, Ok(()))
}

type Entries = Stamped<String, Entry<usize>>;

fn put_single(alloc: Global, map: &mut Entries, key: &str, row: Row<'_>) -> Result<(), NoMemory> {
    let (key, entry) = both(String::from_str(alloc, key), entry(alloc, row))?;
    done(map.take(key, entry))
}

// Returns a map of one value.
fn single(alloc: Global, key: &str, row: Row<'_>) -> Result<Entries, NoMemory> {
    let mut map = Stamped::new(alloc);
    let done = put_single(alloc, &mut map, key, row);
    finished(map, done)
}

// Returns the number whose decimal digits are the counts of the entries, in order.
fn counts_of(map: &Entries) -> u64 {
    let mut counts: u64 = 0;
    for (_, entry) in map.iter() {
        counts = counts.wrapping_mul(10).wrapping_add(entry.stamp.count);
    }
    counts
}

fn has_both(rt: &impl Abort, map: &Entries, q: &String) {
    let found = is_text_of(map.get(q), PERMIT) && is_text_of(map.get_str("p"), "");
    holds(rt, found && counts_of(map) == 32, "both values");
}

fn merge_maps(rt: &impl Abort, pair: (Entries, Entries), q: &String) {
    let (mut left, right) = pair;
    holds(rt, !right.below(&left), "it is not below");
    holds(rt, left.merge(right).is_ok(), "it is merged");
    has_both(rt, &left, q);
}

fn join_maps(rt: &impl Abort, alloc: Global, q: &String) -> Result<(), NoMemory> {
    let left = single(alloc, "q", (2, "1", PERMIT));
    merge_maps(rt, both(left, single(alloc, "p", (3, "1", "")))?, q);
    Ok(())
}

#[test]
fn a_map_joins_its_values(rt: HostRuntime) -> Result<(), NoMemory> {
    let alloc = rt.alloc();
    let q = String::from_str(alloc, "q")?;
    join_maps(&rt, alloc, &q)
}

#[test]
fn laws_are_called() {
    laws::entries_are_joined();
    laws::read_entries_are_joined::<usize>();
    laws::joins_have_laws::<Entry<usize>>();
    laws::stamped_are_joined::<String, Entry<usize>>();
    laws::updates_have_one_store();
    laws::stores_are_joined();
    laws::stamps_are_issued();
    laws::site_names_are_recognized();
    laws::stores_are_raised();
}
