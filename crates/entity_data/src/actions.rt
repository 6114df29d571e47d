//! Sources of actions: the trait, and the source without actions.
ghost use Rattle.std.specs.Prelude.{◌≡◌, [], List, None, option_map};
ghost use Rattle.values.specs.declared.entity_uid.EntityUid.{EntityUid};
ghost use Rattle.evaluator.specs.ancestor_search.Hierarchy.{IsAscending};
ghost use Rattle.entity_data.specs.ActionHierarchy.{IsActionHierarchy};
ghost use Rattle.entity_data.specs.Entities.{Actions, AreActions, no_actions};
ghost use Rattle.entity_data.specs.Listing.{none_is_an_action};

use values::EntityUid;

/// A source of actions, each with its parents.
pub trait ActionSource {
    /// The parents of each action; `None` for any other uid.
    ghost declared: { Self → Actions };

    /// The uids of the actions.
    ghost uids: { Self → List EntityUid };

    /// Returns the uids of the actions, in ascending order. Does not allocate.
    fn actions(&self) -> &[EntityUid]
        ensures all { AreActions (declared self.now) result.now }
        ensures ascending { IsAscending result.now };

    /// Returns the parents of an action, or `None` if and only if it is not declared. Does not allocate.
    fn parents_of_action(&self, uid: &EntityUid) -> Option<&[EntityUid]>
        ensures { option_map (λ us. us.now) result ≡ declared self.now uid.now };

    /// Proves that the parents of actions are actions and that no action is its own ancestor, so that no cycle
    /// contains an action. No-op.
    fn are_a_hierarchy(&self)
        ensures { IsActionHierarchy (declared self.now) };

    /// The proof that `uids` are exactly the uids of the actions.
    ghost listed: { (s : Self) → AreActions (declared s) (uids s) };
}

/// The empty source, with no actions.
#[derive(Clone, Copy)]
pub struct NoActions;

impl ActionSource for NoActions {
    ghost declared = { λ _. no_actions };

    ghost uids = { λ _. [] };

    ghost listed = { λ _. none_is_an_action };

    fn actions(&self) -> &[EntityUid] {
        &[]
    }

    fn parents_of_action(&self, _uid: &EntityUid) -> Option<&[EntityUid]> {
        None
    }

    fn are_a_hierarchy(&self) {}
}
