//! Limits on the size of a policy's expression. specs/Size defines the height (`height`), the number of nodes
//! (`node_count`) and the limits (`IsSmall`). The parser computes both numbers on the syntax tree, before it builds a
//! core expression.

/// The greatest height of a policy's expression.
pub const HEIGHT_MAX: u32 = 1_000;

/// The greatest number of nodes of a policy's expression.
pub const NODES_MAX: u32 = 1_000_000;
