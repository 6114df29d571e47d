//! Theorems about the outcomes of expressions. The functions are no-ops.
ghost use Rattle.evaluator.specs.Laws.{HaveOneOutcome, HaveOneOutcomeInFiniteHierarchies, NoOutcomeIsNoMemory};
ghost use Rattle.evaluator.specs.inner.Meanings.{MeaningIsOutcome};

use ancestor_search::laws::paths_are_decided;
use values::{decimal_is_unique, network_is_unique, sets_hold_their_members};

/// Proves that `meaning` computes the only outcome of an expression, if a test decides the ancestor relation. No-op.
pub(crate) fn meaning_is_outcome()
    ensures { MeaningIsOutcome }
{
    decimal_is_unique();
    network_is_unique();
    sets_hold_their_members();
}

/// Proves that each expression has exactly one outcome, if a test decides the ancestor relation. Such a test exists if
/// finitely many entities have parents. Proves also that no outcome is `NoMemory`, which only the evaluator returns.
/// No-op.
pub fn expressions_have_one_outcome()
    ensures decided { HaveOneOutcome }
    ensures finite { HaveOneOutcomeInFiniteHierarchies }
    ensures memory { NoOutcomeIsNoMemory }
{
    meaning_is_outcome();
    paths_are_decided();
}
