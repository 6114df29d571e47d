//! A relation, chosen by the user of a store, between the texts of the store and their parsed forms.
ghost use Rattle.std.specs.Prelude.{List, ℕ};
ghost use Rattle.values.specs.declared.entity_uid.EntityUid.{EntityUid};

/// The possible parsed forms of a store's texts: a relation between a name, a text and its parsed form.
///
/// The trait has no methods. A contract cannot range over relations, so [`crate::readings_are_preserved`] ranges
/// over the implementations of this trait. A crate that maintains such a relation implements the trait for a type of
/// its own, and uses the theorem. Values of this type may contain what the relation depends on, such as a schema.
pub trait Readings<P, E> {
    /// Whether the policy with this id (the first list) and this text (the second) may have this parsed form.
    ghost reads_policy: { Self → List ℕ → List ℕ → P → Type 0 };

    /// Whether the entity with this uid and this text may have this parsed form.
    ghost reads_entity: { Self → EntityUid → List ℕ → E → Type 0 };
}
