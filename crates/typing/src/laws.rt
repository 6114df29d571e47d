//! Theorems about typing. The functions are no-ops.
ghost use Rattle.typing.specs.Laws.{HaveOneJudgement, CapabilitiesAreASet, TypesAreOrdered, TypedIsSound};
ghost use Rattle.typing.specs.Laws.{TypedIsSoundInFiniteHierarchies, ParentsDetermineAncestors};
ghost use Rattle.typing.specs.Laws.{PoliciesAreSound, SomethingConforms, SomethingIsTyped, SomethingIsFaulty};

use evaluator::expressions_have_one_outcome;

/// Proves that each expression has exactly one judgement, whatever capabilities are known: a type with the
/// capabilities that it gains, or an error. No-op.
pub fn expressions_have_one_judgement()
    ensures { HaveOneJudgement }
{}

/// Proves that judgements depend on the known capabilities only as a set: their order and repeats change no type, no
/// error and no gained capability. No-op.
pub fn capabilities_are_a_set()
    ensures { CapabilitiesAreASet }
{}

/// Proves that the keys of record types ascend in the type of each expression, if they do so in the environment's
/// types. No-op.
pub fn types_are_ordered()
    ensures { TypesAreOrdered }
{}

/// Proves that typing is sound if a test decides the ancestor relation. No-op. There is such a test if finitely many
/// entities have parents.
///
/// Let a request and the entities conform to an environment, and let the fields of the known capabilities be present.
/// Then a typed expression gives a value of its type, `EntityDoesNotExist` or `ArithBoundsError`. If it gives true, the
/// fields of the capabilities that it gains are present. So a policy's expression of boolean type gives a boolean or
/// one of these errors, and is never true if its type is False.
pub fn typed_expressions_are_sound()
    ensures decided { TypedIsSound }
    ensures finite { TypedIsSoundInFiniteHierarchies }
    ensures policies { PoliciesAreSound }
{
    expressions_have_one_outcome();
}

/// Proves that the theorem about conforming requests and entities is not vacuous: the example conforms. In the example
/// an optional attribute may be accessed after `has` and `&&`, but not after `has` and `||`. No-op.
pub fn something_conforms()
    ensures conforms { SomethingConforms }
    ensures typed { SomethingIsTyped }
    ensures faulty { SomethingIsFaulty }
{}

/// Proves that, if the types of parents are allowed and the relation of ancestor types is transitive, the types of
/// ancestors are allowed. No-op.
///
/// This is about entities that are not actions. If no parent is an action, and the type of each parent may be an
/// ancestor type of the entity's type, then so may the type of each ancestor.
pub fn parents_determine_ancestors()
    ensures { ParentsDetermineAncestors }
{}
