//! Checks of policies before any of their expressions is built: their error at the least offset, and whether they are
//! within the limits.
ghost use Rattle.std.specs.Prelude.{◌≡◌, ◌↔◌, IsTrue, IfOk};
ghost use Rattle.std.specs.List.{AllByRecursion};
ghost use Rattle.grammar_desugaring.specs.ReportedErrors as spec;
ghost use Rattle.grammar_desugaring.specs.BuiltFrom.{IsBuiltFrom};
ghost use Rattle.grammar_parsing.specs.WellFormed.{WellFormedPolicy};
ghost use Rattle.policy_grammar.specs.inner.Parts.{ReportsPolicy, ReportsFile};

use crate::annotations::repeated_annotation;
use crate::conditions::measure_conditions;
use crate::limits::is_small;
use grammar_desugaring::{DesugarFault, earlier_of, least_fault_is_reported};
use grammar_parsing::PolicyTree;
use plain::NoMemory;
use std::alloc::Global;

/// The result of checking one policy, or several.
#[derive(Clone, Copy)]
pub(crate) struct TreeCheck {
    /// The error at the least offset, of a repeated annotation or of a condition, if there is one.
    pub(crate) fault: Option<DesugarFault>,
    /// Whether each core expression is within the limits of height and nodes.
    pub(crate) small: bool,
}

/// Combines the results of checking two groups of policies: returns the earlier error, and whether all are within the
/// limits.
fn both(one: TreeCheck, other: TreeCheck) -> TreeCheck
    ensures fault { result.fault ≡ spec.earlier_of one.fault other.fault }
    ensures small { IsTrue result.small ↔ (IsTrue one.small × IsTrue other.small) }
{
    TreeCheck {
        fault: earlier_of(one.fault, other.fault),
        small: one.small && other.small,
    }
}

/// Returns the result of checking a policy. Allocates only for the keys of annotations and of records.
pub(crate) fn check_tree(
    alloc: Global,
    text: &str,
    tree: &PolicyTree,
) -> Result<TreeCheck, NoMemory>
    requires { IsBuiltFrom text.now (λ tokens. WellFormedPolicy tokens tree.now) }
    ensures { IfOk result (ReportsPolicy text.now tree.now) }
{
    least_fault_is_reported();
    let repeat = repeated_annotation(alloc, text, tree)?;
    let measure = measure_conditions(alloc, text, tree.conditions.as_slice())?;
    let small = is_small(tree, measure.height, measure.node_count);
    Ok(TreeCheck {
        fault: earlier_of(repeat, measure.fault),
        small,
    })
}

/// Returns the result of checking the policies of a file, except for repeated policy names.
pub(crate) fn check_trees(
    alloc: Global,
    text: &str,
    trees: &[PolicyTree],
) -> Result<TreeCheck, NoMemory>
    requires { IsBuiltFrom text.now (λ tokens. AllByRecursion (WellFormedPolicy tokens) trees.now) }
    ensures { IfOk result (ReportsFile text.now trees.now) }
{
    least_fault_is_reported();
    let mut tree_check = TreeCheck {
        fault: None,
        small: true,
    };
    for tree in trees {
        let one = check_tree(alloc, text, tree)?;
        tree_check = both(tree_check, one);
    }
    Ok(tree_check)
}
