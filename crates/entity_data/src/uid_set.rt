//! Sets of uids.
ghost use Rattle.std.specs.Prelude.{◌≡◌, ◌↔◌, Contains, IfOk};
ghost use Rattle.values.specs.declared.entity_uid.EntityUid.{EntityUid as PlainUid};
ghost use Rattle.evaluator.specs.ancestor_search.Hierarchy.{IsAscending};
ghost use Rattle.entity_data.specs.UidSets.{uid_set};

use evaluator::ascending_lists_are_one;
use plain::NoMemory;
use std::marker::Model;
use values::{EntityUid, entity_uids_are_ordered};

/// A finite set of uids. Contracts see the list of its members, which ascend strictly.
#[derive(Drop)]
pub struct UidSet {
    members: Vec<EntityUid>,
}

impl Model for UidSet {
    ghost use Rattle.std.specs.Prelude.{List};
    ghost use Rattle.std.specs.Coded.{codes};
    ghost use Rattle.values.specs.declared.entity_uid.EntityUid.{EntityUid as PlainUid};
    ghost use Rattle.evaluator.specs.ancestor_search.Hierarchy.{IsAscending};

    ghost Value = { List PlainUid };

    ghost coded = { Prim.hlevel codes };

    ghost view = { λ s. s.members.items };

    ghost invariant = { λ s. IsAscending s.members.items };
}

impl UidSet {
    /// Creates the set of `uids`, which may be in any order and repeat. The only error is `NoMemory`.
    pub fn new(uids: Vec<EntityUid>) -> Result<UidSet, NoMemory>
        ensures is { IfOk result (λ s. s ≡ uid_set uids.items) }
        ensures members { IfOk result (λ s. (u : PlainUid) → Contains s u ↔ Contains uids.items u) }
        ensures ascending { IfOk result (λ s. IsAscending s) }
    {
        ascending_lists_are_one();
        entity_uids_are_ordered();
        let mut members = uids;
        members.sort()?;
        members.dedup();
        Ok(UidSet { members })
    }

    /// Returns the members, which ascend strictly. Does not allocate.
    pub fn members(&self) -> &[EntityUid]
        ensures members { result.now ≡ self.now }
        ensures ascending { IsAscending self.now }
    {
        &self.members
    }
}
