//! The types of expressions.
ghost use Rattle.std.specs.Prelude.{◌≡◌, ◌↔◌, IsTrue, IfOk, IfErr, MatchOption};
ghost use Rattle.std.specs.Bool.{Decides};
ghost use Rattle.typing.specs.Types.{false_type, IsBoolean};
ghost use Rattle.typing.specs.Rows.{MayBeTrue, MayBeFalse};
ghost use Rattle.schema_types.specs.CedarViews.{cedar_view};
ghost use Rattle.type_checker.specs.FromSchemas.{static};
ghost use Rattle.type_checker.specs.Views.{boolean_view, static_view, type_sharing};

use crate::parts::{Part, TypeKind};
use plain::{Items, NoMemory, Shared, Text};
use schema_types::CedarType;
use values::TypeName;

/// A boolean type.
#[derive(Clone, Copy, PartialEq, Eq)]
pub enum BooleanType {
    /// True for each request.
    True,
    /// False for each request.
    False,
    /// True or false, not known before the request: Bool.
    Either,
}

impl BooleanType {
    /// Returns whether booleans of this type may be true.
    pub fn may_be_true(self) -> bool
        ensures { IsTrue result ↔ MayBeTrue (boolean_view self) }
    {
        match self {
            BooleanType::True => true,
            BooleanType::Either => true,
            BooleanType::False => false,
        }
    }

    /// Returns whether booleans of this type are known to be false.
    pub fn is_false(self) -> bool
        ensures { Decides result (boolean_view self ≡ false_type) }
    {
        match self {
            BooleanType::False => true,
            BooleanType::True | BooleanType::Either => false,
        }
    }

    /// Returns whether booleans of this type may be false.
    pub fn may_be_false(self) -> bool
        ensures { IsTrue result ↔ MayBeFalse (boolean_view self) }
    {
        match self {
            BooleanType::False => true,
            BooleanType::Either => true,
            BooleanType::True => false,
        }
    }
}

/// A type without parts.
#[derive(Clone, Copy)]
pub enum Leaf<'a> {
    /// True, False or Bool.
    Boolean(BooleanType),
    /// Integers in signed 64 bits.
    Long,
    /// Strings.
    Text,
    /// Entities of the type with this name.
    Entity(&'a TypeName),
    /// The extension type `decimal`.
    Decimal,
    /// The extension type `ipaddr`: IP addresses and ranges.
    Ipaddr,
}

/// The type of an expression. Declared types are borrowed from the schema, and names from the schema or the
/// expression. A set or record type that an expression builds is shared by its copies.
///
/// Source: Cedar reference guide, "Policy validation".
#[derive(Drop)]
pub enum StaticType<'a> {
    Leaf(Leaf<'a>),
    /// A declared set type, by the type of its members.
    DeclaredSet(&'a CedarType),
    /// A declared record type: each key with its type, and whether it is required.
    DeclaredRecord(&'a [(Text, CedarType, bool)]),
    /// A set type that an expression builds, by the type of its members.
    Set(Shared<StaticType<'a>>),
    /// A record type that an expression builds: each key with its type, and whether it is required.
    Record(Shared<Items<(&'a str, StaticType<'a>, bool)>>),
}

impl<'a> StaticType<'a> {
    /// Returns the type of the values of a declared type. Does not allocate.
    pub fn declared(ty: &'a CedarType) -> StaticType<'a>
        ensures { static_view result ≡ static (cedar_view ty.now) }
    {
        match ty {
            CedarType::Text => StaticType::Leaf(Leaf::Text),
            CedarType::Long => StaticType::Leaf(Leaf::Long),
            CedarType::Boolean => StaticType::Leaf(Leaf::Boolean(BooleanType::Either)),
            CedarType::Decimal => StaticType::Leaf(Leaf::Decimal),
            CedarType::Ipaddr => StaticType::Leaf(Leaf::Ipaddr),
            CedarType::Set(element) => StaticType::DeclaredSet(element),
            CedarType::Record(fields) => StaticType::DeclaredRecord(fields.as_slice()),
            CedarType::Entity(name) => StaticType::Leaf(Leaf::Entity(name)),
        }
    }

    /// Returns a boolean type. Does not allocate.
    pub fn boolean(truth: BooleanType) -> StaticType<'a>
        ensures { static_view result ≡ boolean_view truth }
    {
        StaticType::Leaf(Leaf::Boolean(truth))
    }

    /// Returns a copy of the type. Does not allocate: a set or record type that an expression built is shared.
    ///
    /// # Errors
    ///
    /// - `NoMemory`: an expression built the type, and the count of references to it would overflow.
    pub fn copy(&self) -> Result<StaticType<'a>, NoMemory>
        ensures same { IfOk result (λ t. static_view t ≡ static_view self.now) }
        ensures memory { IfErr result (λ _. IsTrue (type_sharing self.now).is_type_shared) }
    {
        match self {
            StaticType::Leaf(leaf) => Ok(StaticType::Leaf(same_leaf(leaf))),
            StaticType::DeclaredSet(member) => Ok(StaticType::DeclaredSet(*member)),
            StaticType::DeclaredRecord(fields) => Ok(StaticType::DeclaredRecord(*fields)),
            StaticType::Set(member) => Ok(StaticType::Set(member.share()?)),
            StaticType::Record(fields) => Ok(StaticType::Record(fields.share()?)),
        }
    }

    /// Returns this type as a boolean type, or `None` for another type. Does not allocate.
    pub fn as_boolean(&self) -> Option<BooleanType>
        ensures { MatchOption result (¬ IsBoolean (static_view self.now))
            (λ b. static_view self.now ≡ boolean_view b) }
    {
        match Part::Built(self).kind() {
            TypeKind::Leaf(Leaf::Boolean(truth)) => Some(truth),
            _ => None,
        }
    }

    /// Returns whether this is the type False. Does not allocate.
    pub fn is_false(&self) -> bool
        ensures { Decides result (static_view self.now ≡ false_type) }
    {
        match self.as_boolean() {
            Some(truth) => truth.is_false(),
            None => false,
        }
    }

    /// Returns whether this is a boolean type whose value may be true. Does not allocate.
    pub fn may_be_true(&self) -> bool
        ensures { IsTrue result ↔ MayBeTrue (static_view self.now) }
    {
        match self.as_boolean() {
            Some(truth) => truth.may_be_true(),
            None => false,
        }
    }

    /// Returns whether this is a boolean type whose value may be false. Does not allocate.
    pub fn may_be_false(&self) -> bool
        ensures { IsTrue result ↔ MayBeFalse (static_view self.now) }
    {
        match self.as_boolean() {
            Some(truth) => truth.may_be_false(),
            None => false,
        }
    }
}

/// Returns a copy of the leaf.
pub(crate) fn same_leaf<'a>(leaf: &Leaf<'a>) -> Leaf<'a>
    ensures { result ≡ leaf.now }
{
    match leaf {
        Leaf::Boolean(truth) => Leaf::Boolean(*truth),
        Leaf::Long => Leaf::Long,
        Leaf::Text => Leaf::Text,
        Leaf::Entity(name) => Leaf::Entity(*name),
        Leaf::Decimal => Leaf::Decimal,
        Leaf::Ipaddr => Leaf::Ipaddr,
    }
}
