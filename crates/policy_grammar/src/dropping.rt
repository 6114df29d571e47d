//! Functions that drop a value.
ghost use Rattle.std.specs.Prelude.{◌≡◌};

use grammar_parsing::PolicyTree;

/// Returns `made`, and drops the value from which `made` was made.
///
/// The function is generic, so that the drop is one step of the caller's proof, and not one for each variant of the
/// value's type.
pub(crate) fn after<T: Drop, U>(_source: T, made: U) -> U
    ensures { result ≡ made }
{
    made
}

/// Drops a policy's tree.
///
/// The function is not generic, so that a crate that calls it does not prove the drop code of trees again.
pub fn drop_tree(tree: PolicyTree) {
    drop(tree);
}
