//! The entries of the ancestor cache: for each entity the list of its ancestors, and its children.
//!
//! There is an entry for each entity that has a parent, and for each that is a parent; another entity may have an empty
//! entry. The uid of an entity with an entry is stored twice: as the key, and shared among all lists and sets that
//! contain it.
ghost use Rattle.std.specs.Prelude.{◌≡◌, ◌↔◌, [], false, Contains, IsTrue, IfOk, OnOk, cond};
ghost use Rattle.values.specs.declared.entity_uid.EntityUid.{EntityUid as PlainUid};
ghost use Rattle.ancestor_search.specs.Decided.{is_same};
ghost use Rattle.ancestor_closure.specs.Lists.{ancestors_in, children_in, SameLists, SameChildren, HasEntry};
ghost use Rattle.ancestor_closure.specs.Lists.{KeepEntries};

use plain::{NoMemory, Shared};
use std::alloc::Global;
use std::collections::{BTreeMap, BTreeSet};
use values::EntityUid;

/// The ancestor cache's entry of an entity.
#[derive(Drop)]
pub struct Relatives {
    /// The entity's uid, shared with the lists and sets that contain it.
    pub(crate) uid: Shared<EntityUid>,
    /// All its ancestors, ascending.
    pub(crate) ancestors: Vec<Shared<EntityUid>>,
    /// Its children.
    pub(crate) children: BTreeSet<Shared<EntityUid>>,
}

/// Returns the cached ancestors of an entity; an empty slice if it has no entry.
pub fn ancestors_at<'a>(
    relatives: &'a BTreeMap<EntityUid, Relatives>,
    uid: &EntityUid,
) -> &'a [Shared<EntityUid>]
    ensures { result.now ≡ ancestors_in relatives.now uid.now }
{
    match relatives.get(uid) {
        Some(known) => &known.ancestors,
        None => &[],
    }
}

/// Returns whether the cache has `child` as a child of `parent`.
pub(crate) fn is_child(
    relatives: &BTreeMap<EntityUid, Relatives>,
    parent: &EntityUid,
    child: &Shared<EntityUid>,
) -> bool
    ensures { IsTrue result ↔ Contains (children_in relatives.now parent.now) child.now }
{
    match relatives.get(parent) {
        Some(known) => known.children.contains(child),
        None => false,
    }
}

/// Returns the uid of an entity, shared with the cache's entry, or copied if there is no entry with this uid. The only
/// error is `NoMemory`.
pub fn shared(
    alloc: Global,
    relatives: &BTreeMap<EntityUid, Relatives>,
    uid: &EntityUid,
) -> Result<Shared<EntityUid>, NoMemory>
    ensures { IfOk result (λ s. s ≡ uid.now) }
{
    if let Some(known) = relatives.get(uid) {
        if *known.uid == *uid {
            return known.uid.share();
        }
    }
    Shared::new(alloc, uid.copy()?)
}

// Returns an entry without ancestors and children.
fn without_relatives(alloc: Global, uid: &EntityUid) -> Result<Relatives, NoMemory>
    ensures ancestors { IfOk result (λ r. r.ancestors.items ≡ []) }
    ensures children { IfOk result (λ r. r.children.keys ≡ []) }
{
    let uid = Shared::new(alloc, uid.copy()?)?;
    Ok(Relatives {
        uid,
        ancestors: Vec::new(alloc),
        children: BTreeSet::new(alloc),
    })
}

/// Adds an empty entry for an entity, if it has none.
pub(crate) fn reserve(
    alloc: Global,
    relatives: &mut BTreeMap<EntityUid, Relatives>,
    uid: &EntityUid,
) -> Result<(), NoMemory>
    ensures lists { SameLists relatives.old relatives.new }
    ensures children { SameChildren relatives.old relatives.new }
    ensures stay { KeepEntries relatives.old relatives.new }
    ensures there { OnOk result (HasEntry relatives.new uid.now) }
{
    if !relatives.contains_key(uid) {
        let name = uid.copy()?;
        relatives.insert(name, without_relatives(alloc, uid)?)?;
    }
    Ok(())
}

// Returns whether an entity has ancestors or children.
fn has_relatives(relatives: &BTreeMap<EntityUid, Relatives>, uid: &EntityUid) -> bool
    ensures ancestors { result ≡ false → ancestors_in relatives.now uid.now ≡ [] }
    ensures children { result ≡ false → children_in relatives.now uid.now ≡ [] }
{
    match relatives.get(uid) {
        Some(known) => known.ancestors.len() + known.children.len() > 0,
        None => false,
    }
}

/// Removes the entry of an entity, if it has neither ancestors nor children.
pub(crate) fn release(relatives: &mut BTreeMap<EntityUid, Relatives>, uid: &EntityUid)
    ensures lists { SameLists relatives.old relatives.new }
    ensures children { SameChildren relatives.old relatives.new }
{
    if has_relatives(relatives, uid) {
        return;
    }
    relatives.remove(uid);
}

/// Removes the entry of each of these entities that has neither ancestors nor children.
pub(crate) fn release_all(relatives: &mut BTreeMap<EntityUid, Relatives>, uids: &[&EntityUid])
    ensures lists { SameLists relatives.old relatives.new }
    ensures children { SameChildren relatives.old relatives.new }
{
    for uid in uids {
        release(relatives, uid);
    }
}

/// Replaces the cached ancestors of an entity, which has an entry. Does not allocate.
pub fn write_list(
    relatives: &mut BTreeMap<EntityUid, Relatives>,
    uid: &EntityUid,
    list: Vec<Shared<EntityUid>>,
)
    requires { HasEntry relatives.old uid.now }
    ensures lists { (q : PlainUid) →
        ancestors_in relatives.new q ≡ cond (is_same uid.now q) list.items (ancestors_in relatives.old q) }
    ensures children { SameChildren relatives.old relatives.new }
    ensures stay { KeepEntries relatives.old relatives.new }
{
    match relatives.get_mut(uid) {
        Some(known) => {
            known.ancestors = list;
        }
        None => {}
    }
}
