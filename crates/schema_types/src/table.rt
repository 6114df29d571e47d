//! The table of common types with their expansions.

use crate::cedar::CedarType;
use std::collections::BTreeMap;

/// The size of an expanded type: its nodes and its depth, each at most one more than its limit.
#[derive(Clone, Copy)]
pub struct Size {
    /// The number of its nodes.
    pub parts: u32,
    /// Its depth; a leaf is 1 deep.
    pub deep: u32,
}

/// An entry of the table: the size of a common type's expansion, and the expansion unless it is too large.
#[derive(Drop)]
pub struct CommonEntry {
    /// The size of the expansion.
    pub size: Size,
    /// The expansion; `None` if it is too large.
    pub whole: Option<CedarType>,
}

/// The entries of common types, by their full names.
pub type Table = BTreeMap<String, CommonEntry>;
