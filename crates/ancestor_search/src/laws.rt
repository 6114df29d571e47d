//! Theorems about the ancestor relation, ascending lists of entities, and least cycles. The functions are no-ops.
ghost use Rattle.ancestor_search.specs.Decided.{PathsAreDecided};
ghost use Rattle.ancestor_search.specs.Hierarchy.{AscendingListsAreOne};
ghost use Rattle.ancestor_search.specs.LeastCycle.{CyclesHaveALeast, LeastCyclesAreOne};

/// Proves that the ancestor relation is decidable if finitely many entities have parents. No-op.
pub fn paths_are_decided()
    ensures { PathsAreDecided }
{}

/// Proves that two ascending lists of the same entities are equal, so the lists that [`crate::Ancestry::ancestors`] and
/// [`crate::Ancestry::cyclic`] return are unique. No-op.
pub fn ascending_lists_are_one()
    ensures { AscendingListsAreOne }
{}

/// Proves that a hierarchy has at most one least cycle; and that it has one if some entity is cyclic, and finitely many
/// entities have parents. No-op.
pub fn cycles_have_one_least()
    ensures one { LeastCyclesAreOne }
    ensures there { CyclesHaveALeast }
{}
