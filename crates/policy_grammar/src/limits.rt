//! Limits on the size of a policy.
ghost use Rattle.std.specs.Prelude.{◌≡◌, ◌↔◌, ◌<◌, ◌^◌, IsTrue, All};
ghost use Rattle.policy_grammar.specs.Limits as spec;
ghost use Rattle.policy_grammar.specs.Limits.{IsSmallOver, IsId, ShapesAreSizes, NineNodesMore, HeadsAreLow};

use grammar_core::{HEIGHT_MAX, NODES_MAX};
use grammar_parsing::{ActionTree, PartTree, PolicyTree};
use plain::Text;

/// The greatest height of the conditions' core expression: the policy's expression has three `&&` above it, and no
/// scope alone is too high.
const MOST_CONDITION_HEIGHT: u32 = HEIGHT_MAX - 3;

/// The greatest number of nodes of a policy's core expression.
const MOST_NODES: usize = NODES_MAX as usize;

/// The greatest number of bytes of a policy's id.
pub const MOST_ID_BYTES: usize = 256;

/// Returns the number of nodes of a scope's part on the principal or the resource.
fn part_nodes(part: &PartTree) -> usize
    ensures is { result ≡ spec.node_count (spec.part_shape part.now) }
    ensures few { result < 7 }
{
    match part {
        PartTree::Any => 1,
        PartTree::Equal(_) | PartTree::In(_) => 3,
        PartTree::Is(_) => 2,
        PartTree::IsIn(_, _) => 6,
    }
}

/// Returns the number of nodes of a scope's part on the action.
fn action_nodes(action: &ActionTree) -> usize
    ensures is { result ≡ spec.node_count (spec.action_shape action.now) }
    ensures fits { result < 2 ^ 63 }
{
    match action {
        ActionTree::Any => 1,
        ActionTree::Equal(_) | ActionTree::In(_) => 3,
        ActionTree::InList(uids) => match uids.as_slice() {
            [] => 1,
            listed => listed.len() + 3,
        },
    }
}

/// Returns whether a policy's core expression is within the limits, given the height and the nodes of its conditions.
pub(crate) fn is_small(tree: &PolicyTree, height: u32, node_count: u32) -> bool
    ensures { IsTrue result ↔ IsSmallOver tree.now height node_count }
{
    let head = part_nodes(&tree.principal)
        + action_nodes(&tree.action)
        + part_nodes(&tree.resource)
        + 3;
    height <= MOST_CONDITION_HEIGHT && head + node_count as usize <= MOST_NODES
}

/// Returns whether a string may be a policy's name in a file: 1 to 256 bytes.
pub(crate) fn is_id(name: &Text) -> bool
    ensures { IsTrue result ↔ IsId name.now }
{
    let len = name.len();
    1 <= len && len <= MOST_ID_BYTES
}

/// Returns whether each string may be a policy's name in a file.
pub(crate) fn are_ids(names: &[Text]) -> bool
    ensures { IsTrue result ↔ All IsId names.now }
{
    names.iter().all(|name| is_id(name))
}

/// Proves that the size computed from a policy's tree is that of the policy's core expression. A policy without
/// conditions, whose only constraint is a nonempty list of actions, has nine nodes more than that list has actions. A
/// scope adds at most three to the height of the conditions, unless the whole is at most 6 high. No-op.
pub fn heads_are_small()
    ensures sizes { ShapesAreSizes }
    ensures list { NineNodesMore }
    ensures low { HeadsAreLow }
{}
