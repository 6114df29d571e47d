//! The environments in which policies are typed.
ghost use Rattle.std.specs.Prelude.{◌≡◌, ◌↔◌, [], false, Contains, IsTrue};
ghost use Rattle.values.specs.Names.{text_cmp};
ghost use Rattle.schema_types.specs.CedarViews.{cedar_view, cedar_fields_view};
ghost use Rattle.entities.specs.schema.Views.{schema_view, environment_view};
ghost use Rattle.entities.specs.Entities.{is_action_type};
ghost use Rattle.typing.specs.Types.{field_declared_at};
ghost use Rattle.typing.specs.Ordered.{AreOrdered};
ghost use Rattle.typing.specs.Rows.{variable_type};
ghost use Rattle.type_checker.specs.FromSchemas.{static_fields, field_types_in, attributes_of, typing_environment_of};
ghost use Rattle.type_checker.specs.Views.{static_view, typing_environment};
ghost use Rattle.type_checker.specs.inner.Parts.{found_view, found_shared};

use crate::parts::Part;
use crate::static_type::{Leaf, StaticType};
use entities::{Environment, Schema, stated_schemas_are_well_formed};
use grammar_core::Variable;
use plain::Text;
use schema_types::CedarType;
use std::cmp::Ordering;
use values::{EntityUid, TypeName};

/// A typing environment: a schema, and one of its environments, that is, an action with the types of its principal,
/// resource and context.
#[derive(Clone, Copy)]
pub struct TypingEnvironment<'a> {
    /// The schema that declares the types.
    pub schema: &'a Schema,
    /// One of the environments of the schema.
    pub environment: &'a Environment,
}

/// Returns whether the entities of a type are actions: whether the last word of its name is `Action`.
pub fn is_action_type(name: &TypeName) -> bool
    ensures { result ≡ is_action_type name.now }
{
    let text = name.as_str();
    text == "Action" || text.as_bytes().ends_with(b"::Action")
}

/// Returns an empty list of fields.
fn no_fields<'a>() -> &'a [(Text, CedarType, bool)]
    ensures { result.now ≡ [] }
{
    &[]
}

/// Returns the fields of a declared record type; another type has none.
fn fields_in<'a>(ty: &'a CedarType) -> &'a [(Text, CedarType, bool)]
    ensures { static_fields (cedar_fields_view result.now) ≡ field_types_in (cedar_view ty.now) }
{
    match ty {
        CedarType::Record(fields) => fields.as_slice(),
        CedarType::Text
        | CedarType::Long
        | CedarType::Boolean
        | CedarType::Decimal
        | CedarType::Ipaddr
        | CedarType::Set(_)
        | CedarType::Entity(_) => no_fields(),
    }
}

/// Returns the attributes that the schema declares for entities of a type, each with its type and whether it is
/// required, in ascending order of their names; action types and undeclared types have none.
///
/// O(log n), where n is the number of entity types. Does not allocate.
pub fn attributes_of<'a>(schema: &'a Schema, name: &TypeName) -> &'a [(Text, CedarType, bool)]
    ensures { static_fields (cedar_fields_view result.now) ≡ attributes_of (schema_view schema.now) name.now }
{
    if is_action_type(name) {
        return no_fields();
    }
    match schema.entity_type(name) {
        Some(entity_type) => fields_in(&entity_type.shape),
        None => no_fields(),
    }
}

/// Compares the name of a field with `key`, by bytes.
fn compare(field: &(Text, CedarType, bool), key: &str) -> Ordering
    ensures { result ≡ text_cmp field.now.0 key.now }
{
    field.0.as_str().cmp(key)
}

/// Returns the declaration of `key` in fields that ascend by key, or `None` if they have no such key. O(log n), where n
/// is the number of fields.
fn found_in_order<'r, 'a>(
    fields: &'a [(Text, CedarType, bool)],
    key: &str,
) -> Option<(Part<'r, 'a>, bool)>
    requires { AreOrdered (static_fields (cedar_fields_view fields.now)) }
    ensures declared { found_view result ≡ field_declared_at key.now (static_fields (cedar_fields_view fields.now)) }
    ensures lent { found_shared result ≡ false }
{
    match fields.binary_search_by(|field| compare(field, key)) {
        Ok(at) => {
            let field = &fields[at];
            Some((Part::Declared(&field.1), field.2))
        }
        Err(_) => None,
    }
}

impl<'a> TypingEnvironment<'a> {
    /// Creates the typing environment of one of a schema's environments. Does not allocate.
    pub fn new(schema: &'a Schema, environment: &'a Environment) -> TypingEnvironment<'a>
        ensures { typing_environment result
            ≡ typing_environment_of (schema_view schema.now) (environment_view environment.now) }
    {
        TypingEnvironment {
            schema,
            environment,
        }
    }

    /// Returns the type of a variable. Does not allocate.
    pub fn variable_type(self, variable: Variable) -> StaticType<'a>
        ensures { static_view result ≡ variable_type (typing_environment self.entry) variable }
    {
        let environment = self.environment;
        let place = &environment.place;
        match variable {
            Variable::Principal => StaticType::Leaf(Leaf::Entity(&place.principal)),
            Variable::Action => StaticType::Leaf(Leaf::Entity(&place.action.type_name)),
            Variable::Resource => StaticType::Leaf(Leaf::Entity(&place.resource)),
            Variable::Context => StaticType::DeclaredRecord(fields_in(&environment.context)),
        }
    }

    /// Returns the action of the environment. Does not allocate.
    pub fn action(self) -> &'a EntityUid
        ensures { result.now ≡ (typing_environment self.entry).action }
    {
        let environment = self.environment;
        &environment.place.action
    }

    /// Returns the declaration of the attribute `key` of an entity type, or `None` if it has no such attribute.
    /// Looks up the type in the schema and the attribute in the type, each in logarithmic time.
    pub(crate) fn attribute<'r>(self, name: &TypeName, key: &str) -> Option<(Part<'r, 'a>, bool)>
        ensures declared { found_view result
            ≡ field_declared_at key.now ((typing_environment self.entry).attributes name.now) }
        ensures lent { found_shared result ≡ false }
    {
        self.schema.is_stated();
        stated_schemas_are_well_formed();
        found_in_order(attributes_of(self.schema, name), key)
    }

    /// Returns whether the entities of a type are actions. Does not allocate.
    pub fn is_action_type(self, name: &TypeName) -> bool
        ensures { result ≡ (typing_environment self.entry).is_action_type name.now }
    {
        is_action_type(name)
    }

    /// Returns whether entities of the type `below` may have ancestors of the type `above`. Does not allocate.
    pub fn may_have_ancestor(self, below: &TypeName, above: &TypeName) -> bool
        ensures { result ≡ (typing_environment self.entry).may_have_ancestor below.now above.now }
    {
        self.schema.may_have_parent(below, above)
    }

    /// Returns whether, by the schema, the action `above` is an ancestor of `action`. Does not allocate.
    ///
    /// Takes O(log n) comparisons, where n is the number of actions. The schema lists the ancestors of an action as
    /// spans of consecutive numbers; the test also takes time linear in the number of the spans for `action`.
    pub fn is_action_ancestor(self, action: &EntityUid, above: &EntityUid) -> bool
        ensures { IsTrue result ↔ Contains ((typing_environment self.entry).action_ancestors action.now) above.now }
    {
        self.schema.action_has_ancestor(action, above)
    }
}
