//! The schema, and its look-ups.

use crate::laws::stated_schemas_are_well_formed;
use crate::lookups::{action_has_ancestor, may_have_parent, parents_at};
use crate::parts::{EntityDecl, Environment};
use crate::spans::NumberSpan;
use plain::{Items, Text};
use std::collections::BTreeMap;
use std::marker::Model;
use values::{EntityUid, TypeName};

/// A schema: entity types with their shapes, actions, and environments.
///
/// Look-ups do not allocate and take logarithmic time. Actions and entity types are numbered, and the numbers of the
/// ancestors of each are stored as spans of consecutive numbers. A test for an ancestor also takes time linear in the
/// number of these spans, which is at most one if the hierarchy is a chain, for example (numbering.rt). Contracts see
/// the entries of a schema, which are plain data, and state properties of the abstract schema (`schema_view`). Each
/// schema is one that some bytes describe ([`Schema::is_stated`]).
#[derive(Drop)]
pub struct Schema {
    pub(crate) label: Text,
    pub(crate) environments: Items<Environment>,
    pub(crate) actions: Items<EntityUid>,
    pub(crate) shapes: BTreeMap<TypeName, EntityDecl>,
    /// The parents of each action.
    pub(crate) member_of: BTreeMap<EntityUid, Items<EntityUid>>,
    /// The number of each action.
    pub(crate) action_numbers: BTreeMap<EntityUid, usize>,
    /// At each action's number, the spans of the numbers of the action's ancestors.
    pub(crate) action_ancestor_spans: Items<Items<NumberSpan>>,
    /// The number of each entity type.
    pub(crate) type_numbers: BTreeMap<TypeName, usize>,
    /// At each type's number, the spans of the numbers of the type's ancestors.
    pub(crate) type_ancestor_spans: Items<Items<NumberSpan>>,
}

impl Model for Schema {
    ghost use Rattle.std.specs.Coded.{codes};
    ghost use Rattle.schema_types.specs.contracts.cedar.CedarType as cedar;
    ghost use Rattle.schema.specs.SchemaEntries.{SchemaEntries, kept};
    ghost use Rattle.schema.specs.Views.{IsStated};

    ghost Value = { SchemaEntries };

    ghost coded = { Prim.hlevel (codes, cedar.the_row.coded) };

    ghost view = { λ s. kept s.label s.environments s.actions s.shapes s.member_of s.action_numbers
        s.action_ancestor_spans s.type_numbers s.type_ancestor_spans };

    ghost invariant = { λ s. IsStated
        (kept s.label s.environments s.actions s.shapes s.member_of s.action_numbers
        s.action_ancestor_spans s.type_numbers s.type_ancestor_spans) };
}

impl Schema {
    ghost use Rattle.std.specs.Prelude.{◌≡◌, ◌↔◌, ◌&&◌, map, option_map, is_some, IsTrue};
    ghost use Rattle.schema_types.specs.CedarViews.{cedar_view};
    ghost use Rattle.schema.specs.Schemas.{ActionHasAncestor};
    ghost use Rattle.schema.specs.Views.{environment_view, schema_view, action_has_ancestor, IsStated};

    /// Proves the schema's invariant: some bytes describe the schema. No-op.
    pub fn is_stated(&self)
        ensures { IsStated self.now }
    {
        let _ = &self.label;
    }

    /// Returns the environments, ascending by action, then principal type, then resource type.
    pub fn environments(&self) -> &[Environment]
        ensures { map environment_view result.now ≡ (schema_view self.now).environments }
    {
        self.environments.as_slice()
    }

    /// Returns the actions, ascending.
    pub fn actions(&self) -> &[EntityUid]
        ensures { result.now ≡ (schema_view self.now).actions }
    {
        self.actions.as_slice()
    }

    /// Returns the entity type of this name, if it is declared.
    pub fn entity_type(&self, name: &TypeName) -> Option<&EntityDecl>
        ensures { option_map (λ d. cedar_view d.now.shape) result ≡ (schema_view self.now).shape name.now }
    {
        self.shapes.get(name)
    }

    /// Returns the parents of an action, as its `memberOf` lists them; `None` if it is not declared.
    pub fn action_parents(&self, uid: &EntityUid) -> Option<&[EntityUid]>
        ensures { option_map (λ us. us.now) result ≡ (schema_view self.now).member_of uid.now }
    {
        parents_at(&self.member_of, uid)
    }

    /// Returns whether an action is declared.
    pub fn is_action(&self, uid: &EntityUid) -> bool
        ensures { result ≡ is_some ((schema_view self.now).member_of uid.now) }
    {
        match self.action_parents(uid) {
            Some(_) => true,
            None => false,
        }
    }

    /// Returns whether the action `uid` is declared and `above` is its ancestor: whether one or more steps by
    /// `memberOf` lead from `uid` to `above`.
    pub fn action_has_ancestor(&self, uid: &EntityUid, above: &EntityUid) -> bool
        ensures { IsTrue result ↔ ActionHasAncestor (schema_view self.now) uid.now above.now }
    {
        self.is_stated();
        stated_schemas_are_well_formed();
        if self.are_actions(uid, above) {
            return self.has_ancestor_number(uid, above);
        }
        false
    }

    /// Returns whether `uid` and `above` are declared actions.
    fn are_actions(&self, uid: &EntityUid, above: &EntityUid) -> bool
        ensures { result ≡ (is_some ((schema_view self.now).member_of uid.now)
            && is_some ((schema_view self.now).member_of above.now)) }
    {
        self.is_action(uid) && self.is_action(above)
    }

    /// Returns whether the number of `above` is among those of the ancestors of `uid`.
    fn has_ancestor_number(&self, uid: &EntityUid, above: &EntityUid) -> bool
        ensures { result
            ≡ action_has_ancestor self.now.action_numbers self.now.action_ancestor_spans uid.now above.now }
    {
        action_has_ancestor(
            &self.action_numbers,
            self.action_ancestor_spans.as_slice(),
            uid,
            above,
        )
    }

    /// Returns whether an entity of the type `child` may have a parent of the type `parent`: whether one or more steps
    /// by `memberOfTypes` lead from `child` to `parent`.
    pub fn may_have_parent(&self, child: &TypeName, parent: &TypeName) -> bool
        ensures { result ≡ (schema_view self.now).may_have_parent child.now parent.now }
    {
        may_have_parent(
            &self.type_numbers,
            self.type_ancestor_spans.as_slice(),
            child,
            parent,
        )
    }

    /// Returns the label: SHA-256 of the parsed bytes, as 64 lower case hexadecimal digits.
    pub fn label(&self) -> &str
        ensures { result.now ≡ (schema_view self.now).label }
    {
        self.label.as_str()
    }
}
