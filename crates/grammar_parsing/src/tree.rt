//! Syntax trees of policies.
use grammar_syntax::{ExprTree, PathTree, Token, UidTree};
use plain::Items;

/// An annotation: `@key("value")`.
#[derive(Drop)]
pub struct Annotation {
    /// The `@`.
    pub at: Token,
    /// An identifier or a reserved word.
    pub key: Token,
    /// A string; `None` if there are no parentheses, or empty ones.
    pub value: Option<Token>,
}

/// The constraint of a scope on the principal or the resource.
#[derive(Drop)]
pub enum PartTree {
    /// No constraint.
    Any,
    /// `== E`
    Equal(UidTree),
    /// `in E`
    In(UidTree),
    /// `is T`
    Is(PathTree),
    /// `is T in E`
    IsIn(PathTree, UidTree),
}

/// The constraint of a scope on the action.
#[derive(Drop)]
pub enum ActionTree {
    /// No constraint.
    Any,
    /// `== E`
    Equal(UidTree),
    /// `in E`
    In(UidTree),
    /// `in [E, ..]`
    InList(Items<UidTree>),
}

/// The three constraints of a scope.
#[derive(Drop)]
pub(crate) struct ScopeTree {
    pub(crate) principal: PartTree,
    pub(crate) action: ActionTree,
    pub(crate) resource: PartTree,
}

/// The keyword of a condition.
#[derive(Clone, Copy, PartialEq, Eq)]
pub enum ConditionWord {
    /// `when`
    When,
    /// `unless`
    Unless,
}

/// `when {..}` or `unless {..}`.
#[derive(Drop)]
pub struct Condition {
    pub word: ConditionWord,
    pub expression: ExprTree,
}

/// The syntax tree of a policy.
#[derive(Drop)]
pub struct PolicyTree {
    pub annotations: Items<Annotation>,
    /// `permit` or `forbid`.
    pub effect: Token,
    pub principal: PartTree,
    pub action: ActionTree,
    pub resource: PartTree,
    /// The conditions, in order.
    pub conditions: Items<Condition>,
}
