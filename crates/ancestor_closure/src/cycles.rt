//! The cyclic entities: those in their own lists of ancestors.
ghost use Rattle.std.specs.Prelude.{◌≡◌, ◌↔◌, [], ◌∷◌, Contains, IsTrue, IfOk, OnOk};
ghost use Rattle.values.specs.declared.entity_uid.EntityUid.{EntityUid as PlainUid};
ghost use Rattle.ancestor_search.specs.Hierarchy.{IsAscending, referenced};
ghost use Rattle.ancestor_closure.specs.Lists.{ancestors_in};
ghost use Rattle.ancestor_closure.specs.inner.OneChange.{IsInOwn, ListsAscend, Enters, Leaves};

use crate::lists::is_in;
use crate::relatives::{Relatives, ancestors_at};
use plain::{NoMemory, Shared};
use std::alloc::Global;
use std::collections::{BTreeMap, BTreeSet};
use values::EntityUid;

// Adds an entity to `cyclic` if its list of ancestors contains it.
fn enter(
    cyclic: &mut BTreeSet<Shared<EntityUid>>,
    entity: &(Shared<EntityUid>, Vec<Shared<EntityUid>>),
) -> Result<(), NoMemory>
    requires { IsAscending entity.now.1.items }
    ensures enters { Enters (entity.now ∷ []) cyclic.old.keys cyclic.new.keys }
    ensures entered { OnOk result (Contains entity.now.1.items entity.now.0 → Contains cyclic.new.keys entity.now.0) }
{
    if is_in(&entity.1, &entity.0) {
        cyclic.insert(entity.0.share()?)?;
    }
    Ok(())
}

/// Adds to `cyclic` each entity whose own list of ancestors contains it. The lists must ascend. After an error some of
/// the entities may be added.
pub(crate) fn enter_all(
    cyclic: &mut BTreeSet<Shared<EntityUid>>,
    lists: &[(Shared<EntityUid>, Vec<Shared<EntityUid>>)],
) -> Result<(), NoMemory>
    requires { ListsAscend lists.now }
    ensures enters { Enters lists.now cyclic.old.keys cyclic.new.keys }
    ensures entered { OnOk result ((x : PlainUid) → IsInOwn lists.now x → Contains cyclic.new.keys x) }
{
    for entity in lists {
        enter(cyclic, entity)?;
    }
    Ok(())
}

// Removes an entity from `cyclic` if its list of ancestors does not contain it.
fn leave(
    cyclic: &mut BTreeSet<Shared<EntityUid>>,
    relatives: &BTreeMap<EntityUid, Relatives>,
    entity: &Shared<EntityUid>,
)
    requires { IsAscending (ancestors_in relatives.now entity.now) }
    ensures { Leaves (entity.now ∷ []) (ancestors_in relatives.now) cyclic.old.keys cyclic.new.keys }
{
    if is_in(ancestors_at(relatives, entity), entity) {
        return;
    }
    cyclic.remove(entity);
}

/// Removes from `cyclic` each of these entities that its own list of ancestors does not contain.
pub(crate) fn leave_all(
    cyclic: &mut BTreeSet<Shared<EntityUid>>,
    relatives: &BTreeMap<EntityUid, Relatives>,
    entities: &[Shared<EntityUid>],
)
    requires { (q : PlainUid) → Contains entities.now q → IsAscending (ancestors_in relatives.now q) }
    ensures { Leaves entities.now (ancestors_in relatives.now) cyclic.old.keys cyclic.new.keys }
{
    for entity in entities {
        leave(cyclic, relatives, entity);
    }
}

/// Returns whether the set is empty. Does not allocate.
pub fn are_none(uids: &BTreeSet<Shared<EntityUid>>) -> bool
    ensures { IsTrue result ↔ (uids.now.keys ≡ []) }
{
    uids.is_empty()
}

/// Returns references to the members of a set, ascending. The only error is `NoMemory`.
pub fn members<'a>(
    alloc: Global,
    uids: &'a BTreeSet<Shared<EntityUid>>,
) -> Result<Vec<&'a EntityUid>, NoMemory>
    ensures same { IfOk result (λ all. referenced all.items ≡ uids.now.keys) }
    ensures ascending { IsAscending uids.now.keys }
{
    // `len` ensures `ascending`
    let _ascending = uids.len();
    let mut all = Vec::new(alloc);
    for uid in uids.iter() {
        all.push(&**uid)?;
    }
    Ok(all)
}
