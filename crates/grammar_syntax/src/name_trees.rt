//! Syntax trees of paths, uids and names.
use crate::token::Token;
use plain::Items;

/// The syntax tree of a Path: its words.
#[derive(Drop)]
pub struct PathTree {
    pub first: Token,
    /// The words after the first, each of which follows a `::`.
    pub more: Items<Token>,
}

/// The syntax tree of a Uid: the name of the entity's type, and the quoted id.
#[derive(Drop)]
pub struct UidTree {
    pub path: PathTree,
    /// A string without `\*`.
    pub id: Token,
}

/// A Path or a Uid, which begin alike.
#[derive(Drop)]
pub enum PathOrUid {
    Path(PathTree),
    Uid(UidTree),
}
