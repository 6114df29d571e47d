//! The actions of a schema, as an `ActionSource` of entity data.
ghost use Rattle.std.specs.Prelude.{◌≡◌};
ghost use Rattle.entity_hierarchy.specs.Entities.{actions_under, action_uids, actions_are_listed};

use entities::{ActionSource, Schema, stated_schemas_are_well_formed};
use std::marker::Model;
use values::EntityUid;

/// The actions that a schema declares, each with its parents. Contracts see the schema.
#[derive(Drop)]
pub struct SchemaActions<'a> {
    schema: &'a Schema,
}

impl<'a> Model for SchemaActions<'a> {
    ghost use Rattle.std.specs.Coded.{codes};
    ghost use Rattle.entities.specs.schema_types.contracts.cedar.CedarType as cedar;
    ghost use Rattle.entities.specs.schema.SchemaEntries.{SchemaEntries};

    ghost Value = { SchemaEntries };

    ghost coded = { Prim.hlevel (codes, cedar.the_row.coded) };

    ghost view = { λ s. s.schema.now };
}

impl<'a> SchemaActions<'a> {
    /// Returns the actions of this schema. Does not allocate.
    pub fn of(schema: &'a Schema) -> Self
        ensures { result ≡ schema.now }
    {
        SchemaActions { schema }
    }
}

impl ActionSource for SchemaActions<'_> {
    ghost declared = { actions_under };

    ghost uids = { action_uids };

    ghost listed = { actions_are_listed };

    fn actions(&self) -> &[EntityUid] {
        self.schema.is_stated();
        stated_schemas_are_well_formed();
        self.schema.actions()
    }

    fn parents_of_action(&self, uid: &EntityUid) -> Option<&[EntityUid]> {
        self.schema.action_parents(uid)
    }

    fn are_a_hierarchy(&self) {
        self.schema.is_stated();
        stated_schemas_are_well_formed();
    }
}
