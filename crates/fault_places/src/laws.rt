//! Theorems about the places of errors and about spans. The functions are no-ops.
ghost use Rattle.fault_places.specs.Laws.{OneFirstBlame, OneUnknownName};
ghost use Rattle.fault_places.specs.NameWritten.{NamesHaveTokens};
ghost use Rattle.fault_places.specs.NodeTokens.{NodesHaveTokens};

/// Proves that the first error of an expression blames one place: all of its derivations lead to the same environment,
/// path, form and types. No-op.
pub fn first_faults_blame_one_place()
    ensures { OneFirstBlame }
{}

/// Proves that the first name that a schema does not declare is one name at one place. No-op.
pub fn unknown_names_have_one_place()
    ensures { OneUnknownName }
{}

/// Proves that each core node of a policy's whole expression has a place in the policy's tokens. No-op.
///
/// At least one token is written for the node; other tokens may precede and follow. By themselves, the node's tokens
/// derive the least expression that desugars to the node; if desugaring made two nodes of one expression, as
/// `!(a <= b)` of `a > b`, the inner one is written with all of that expression. A node of the scope is written with
/// one of its three parts, the negation of `unless` with the whole condition, and a conjunction of parts or conditions
/// with the policy after its annotations.
pub fn nodes_have_tokens()
    ensures { NodesHaveTokens }
{}

/// Proves that the own name of each core node of a policy's whole expression has a place in the policy's tokens: by
/// themselves, the name's tokens derive it, as a Uid or a Path. No-op.
pub fn names_have_tokens()
    ensures { NamesHaveTokens }
{}
