//! Types by their outermost layer, in one form for the types that expressions build and those that schemas declare.
ghost use Rattle.std.specs.Prelude.{◌≡◌, suc, IsTrue, IfOk, IfErr};
ghost use Rattle.schema_types.specs.CedarViews.{cedar_view, cedar_fields_view};
ghost use Rattle.type_checker.specs.FromSchemas.{static, static_fields};
ghost use Rattle.type_checker.specs.Views.{static_view};
ghost use Rattle.type_checker.specs.inner.Parts.{part_view, part_shared, kind_view, built_view};
ghost use Rattle.type_checker.specs.inner.Parts.{fields_view, fields_count, fields_after, before};

use crate::static_type::{BooleanType, Leaf, StaticType, same_leaf};
use plain::{NoMemory, Text};
use schema_types::CedarType;

/// A type, built by an expression or declared by the schema.
#[derive(Clone, Copy)]
pub(crate) enum Part<'r, 'a> {
    Built(&'r StaticType<'a>),
    Declared(&'a CedarType),
}

/// The fields of a record type.
#[derive(Clone, Copy)]
pub(crate) enum Fields<'r, 'a> {
    Built(&'r [(&'a str, StaticType<'a>, bool)]),
    Declared(&'a [(Text, CedarType, bool)]),
}

/// A type by its outermost layer, with its parts.
#[derive(Clone, Copy)]
pub(crate) enum TypeKind<'r, 'a> {
    Leaf(Leaf<'a>),
    /// The type of the members.
    Set(Part<'r, 'a>),
    Record(Fields<'r, 'a>),
}

/// A field of a record type: its key, its type, and whether it is required.
#[derive(Clone, Copy)]
pub(crate) struct FieldPart<'r, 'a> {
    pub(crate) key: &'a str,
    pub(crate) part: Part<'r, 'a>,
    pub(crate) required: bool,
}

/// Two fields with one key, both required or both optional.
#[derive(Clone, Copy)]
pub(crate) struct FieldPair<'r, 's, 'a> {
    pub(crate) key: &'a str,
    pub(crate) left: Part<'r, 'a>,
    pub(crate) right: Part<'s, 'a>,
    pub(crate) required: bool,
}

impl<'r, 'a> Part<'r, 'a> {
    /// Returns the outermost layer of the type, with its parts.
    pub(crate) fn kind(self) -> TypeKind<'r, 'a>
        ensures { kind_view result ≡ part_view self.entry }
    {
        match self {
            Part::Built(ty) => kind_of(ty),
            Part::Declared(ty) => declared_kind(ty),
        }
    }

    /// Returns an owned copy of the type.
    ///
    /// # Errors
    ///
    /// - `NoMemory`: an expression built the type, and the count of references to it would overflow.
    pub(crate) fn taken(self) -> Result<StaticType<'a>, NoMemory>
        ensures same { IfOk result (λ t. static_view t ≡ part_view self.entry) }
        ensures memory { IfErr result (λ _. IsTrue (part_shared self.entry)) }
    {
        match self {
            Part::Built(ty) => ty.copy(),
            Part::Declared(ty) => Ok(StaticType::declared(ty)),
        }
    }
}

/// Returns the outermost layer of a type that an expression built, or that is borrowed from the schema.
fn kind_of<'r, 'a>(ty: &'r StaticType<'a>) -> TypeKind<'r, 'a>
    ensures { kind_view result ≡ static_view ty.now }
{
    match ty {
        StaticType::Leaf(leaf) => TypeKind::Leaf(same_leaf(leaf)),
        StaticType::DeclaredSet(member) => TypeKind::Set(Part::Declared(*member)),
        StaticType::DeclaredRecord(fields) => TypeKind::Record(Fields::Declared(*fields)),
        StaticType::Set(member) => TypeKind::Set(Part::Built(member)),
        StaticType::Record(fields) => TypeKind::Record(Fields::Built(fields.as_slice())),
    }
}

/// Returns the outermost layer of a declared type.
fn declared_kind<'r, 'a>(ty: &'a CedarType) -> TypeKind<'r, 'a>
    ensures { kind_view result ≡ static (cedar_view ty.now) }
{
    match ty {
        CedarType::Text => TypeKind::Leaf(Leaf::Text),
        CedarType::Long => TypeKind::Leaf(Leaf::Long),
        CedarType::Boolean => TypeKind::Leaf(Leaf::Boolean(BooleanType::Either)),
        CedarType::Decimal => TypeKind::Leaf(Leaf::Decimal),
        CedarType::Ipaddr => TypeKind::Leaf(Leaf::Ipaddr),
        CedarType::Set(element) => TypeKind::Set(Part::Declared(element)),
        CedarType::Record(fields) => TypeKind::Record(Fields::Declared(fields.as_slice())),
        CedarType::Entity(name) => TypeKind::Leaf(Leaf::Entity(name)),
    }
}

impl<'r, 'a> Fields<'r, 'a> {
    /// Returns the number of fields.
    pub(crate) fn len(self) -> usize
        ensures { result ≡ fields_count (fields_view self.entry) }
    {
        match self {
            Fields::Built(fields) => built_len(fields),
            Fields::Declared(fields) => declared_len(fields),
        }
    }

    /// Returns the field at an index, counted from 0, or `None` past the end.
    pub(crate) fn get(self, at: usize) -> Option<FieldPart<'r, 'a>>
        ensures { fields_after at (fields_view self.entry)
            ≡ before result (fields_after (suc at) (fields_view self.entry)) }
    {
        match self {
            Fields::Built(fields) => built_field_at(fields, at),
            Fields::Declared(fields) => declared_field_at(fields, at),
        }
    }
}

/// Returns the number of fields that an expression built.
fn built_len(fields: &[(&str, StaticType<'_>, bool)]) -> usize
    ensures { result ≡ fields_count (built_view fields.now) }
{
    fields.len()
}

/// Returns the number of declared fields.
fn declared_len(fields: &[(Text, CedarType, bool)]) -> usize
    ensures { result ≡ fields_count (static_fields (cedar_fields_view fields.now)) }
{
    fields.len()
}

/// Returns the field at an index of fields that an expression built, or `None` past the end.
fn built_field_at<'r, 'a>(
    fields: &'r [(&'a str, StaticType<'a>, bool)],
    at: usize,
) -> Option<FieldPart<'r, 'a>>
    ensures { fields_after at (built_view fields.now)
        ≡ before result (fields_after (suc at) (built_view fields.now)) }
{
    match fields.get(at) {
        Some(field) => Some(FieldPart {
            key: field.0,
            part: Part::Built(&field.1),
            required: field.2,
        }),
        None => None,
    }
}

/// Returns the field at an index of declared fields, or `None` past the end.
fn declared_field_at<'r, 'a>(
    fields: &'a [(Text, CedarType, bool)],
    at: usize,
) -> Option<FieldPart<'r, 'a>>
    ensures { fields_after at (static_fields (cedar_fields_view fields.now))
        ≡ before result (fields_after (suc at) (static_fields (cedar_fields_view fields.now))) }
{
    match fields.get(at) {
        Some(field) => Some(FieldPart {
            key: field.0.as_str(),
            part: Part::Declared(&field.1),
            required: field.2,
        }),
        None => None,
    }
}
