//! The words for types, entities, environments and names in a report, and for lists of them.
ghost use Rattle.std.specs.Prelude.{◌≡◌, ◌++◌, ℕ, List, OnOk, map, string_bytes};
ghost use Rattle.fault_places.specs.NamesAt.{name_view};
ghost use Rattle.type_checker.specs.schema.Views.{environment_view};
ghost use Rattle.type_checker.specs.Views.{static_view};
ghost use Rattle.fault_places.specs.Words.{type_word, uid_words, name_words, environment_words, names_or};

use crate::unknown_names::UnknownName;
use plain::{NoMemory, Text};
use schema_types::CedarType;
use type_checker::{Environment, Leaf, StaticType};
use values::EntityUid;

/// Appends two texts, one after the other.
pub(crate) fn push_two(out: &mut String, first: &str, second: &str) -> Result<(), NoMemory>
    ensures { OnOk result (string_bytes out.new ≡ string_bytes out.old ++ (first.now ++ second.now)) }
{
    out.push_str(first)?;
    out.push_str(second)
}

/// An item of a list in a report.
pub(crate) trait Listed {
    /// The words for the item.
    ghost words: { Self → List ℕ };

    /// Appends the words for the item.
    fn push_to(&self, out: &mut String) -> Result<(), NoMemory>
        ensures { OnOk result (string_bytes out.new ≡ string_bytes out.old ++ words self.now) };
}

impl Listed for EntityUid {
    ghost words = { uid_words };

    /// Appends the uid in the form `T::"id"` of policies, but without escapes in the id.
    fn push_to(&self, out: &mut String) -> Result<(), NoMemory> {
        push_two(out, self.type_name.as_str(), "::\"")?;
        push_two(out, self.id.as_str(), "\"")
    }
}

impl<'a> Listed for StaticType<'a> {
    ghost words = { λ ty. type_word (static_view ty) };

    /// Appends the word for the type.
    fn push_to(&self, out: &mut String) -> Result<(), NoMemory> {
        out.push_str(type_word(self))
    }
}

impl Listed for (Text, CedarType, bool) {
    ghost words = { λ field. field.0 };

    /// Appends the name of the declared field.
    fn push_to(&self, out: &mut String) -> Result<(), NoMemory> {
        out.push_str(self.0.as_str())
    }
}

impl<'r, 'a> Listed for (&'r str, StaticType<'a>, bool) {
    ghost words = { λ field. field.0.now };

    /// Appends the name of the field of a record type that an expression built.
    fn push_to(&self, out: &mut String) -> Result<(), NoMemory> {
        out.push_str(self.0)
    }
}

/// Appends `before` and the words for the items, separated by commas; `empty` if there are no items.
pub(crate) fn push_list<T: Listed>(
    out: &mut String,
    empty: &str,
    before: &str,
    items: &[T],
) -> Result<(), NoMemory>
    ensures { OnOk result (string_bytes out.new ≡ string_bytes out.old
        ++ names_or empty.now before.now (map T.words items.now)) }
{
    if items.is_empty() {
        return out.push_str(empty);
    }
    let mut separator = before;
    for item in items {
        out.push_str(separator)?;
        item.push_to(out)?;
        separator = ", ";
    }
    Ok(())
}

/// Returns the word that schemas use for a type.
pub(crate) fn type_word<'r>(ty: &'r StaticType<'_>) -> &'r str
    ensures { result.now ≡ type_word (static_view ty.now) }
{
    match ty {
        StaticType::Leaf(leaf) => match leaf {
            Leaf::Boolean(_) => "Boolean",
            Leaf::Long => "Long",
            Leaf::Text => "String",
            Leaf::Entity(name) => name.as_str(),
            Leaf::Decimal => "decimal",
            Leaf::Ipaddr => "ipaddr",
        },
        StaticType::DeclaredSet(_) | StaticType::Set(_) => "Set",
        StaticType::DeclaredRecord(_) | StaticType::Record(_) => "Record",
    }
}

/// Appends an undeclared name.
pub(crate) fn push_name(out: &mut String, name: &UnknownName<'_>) -> Result<(), NoMemory>
    ensures { OnOk result (string_bytes out.new ≡ string_bytes out.old ++ name_words (name_view name.now)) }
{
    match name {
        UnknownName::TestedType(name) => out.push_str(name.as_str()),
        UnknownName::Entity(uid) => uid.push_to(out),
    }
}

/// Appends the name of an environment: the type of its principal, its action, and the type of its resource.
pub(crate) fn push_environment(out: &mut String, environment: &Environment) -> Result<(), NoMemory>
    ensures { OnOk result (string_bytes out.new
        ≡ string_bytes out.old ++ environment_words (environment_view environment.now)) }
{
    let place = &environment.place;
    push_two(out, "in ", place.principal.as_str())?;
    out.push_str(", ")?;
    place.action.push_to(out)?;
    push_two(out, ", ", place.resource.as_str())
}
