//! The resolution of names: the one declaration that a name means.
ghost use Rattle.std.specs.Prelude.{◌≡◌, ◌==◌, IfOk, option_map, is_some};
ghost use Rattle.std.specs.BTreeSet.{contains_text};
ghost use Rattle.json_words.specs.ReadsAs.{ReadsAs};
ghost use Rattle.schema_types.specs.Views.{raw_view, fields_view};
ghost use Rattle.schema_types.specs.QualifiedViews.{qualified_view, qualified_fields_view};
ghost use Rattle.schema_types.specs.Names.{is_qualified as is_in_namespace, full_name, as_declared, found};
ghost use Rattle.schema_types.specs.Names.{built_in as built_in_of, or_entity, any_named};
ghost use Rattle.schema_types.specs.Names.{entity_named, common_named};
ghost use Rattle.schema_types.specs.Names.{qualified_of, fields_of};
ghost use Rattle.schema_types.specs.NamesViews.{scope_of};
ghost use Rattle.schema_types.specs.declared.fault.SchemaFault.TheVariants as SchemaFault;

use crate::fault::SchemaFault;
use crate::qualified::QualifiedType;
use crate::raw::RawType;
use plain::NoMemory;
use std::alloc::Global;
use std::collections::BTreeSet;
use values::{EntityUid, TypeName};

/// The declared names of a schema: the full names of its common types and of its entity types, and its actions.
#[derive(Drop)]
pub struct Names {
    /// The full names of the common types.
    pub commons: BTreeSet<String>,
    /// The full names of the entity types.
    pub entities: BTreeSet<String>,
    /// The uids of the actions.
    pub actions: BTreeSet<EntityUid>,
}

/// Returns whether a name contains a namespace.
pub fn is_qualified(word: &str) -> bool
    ensures { result ≡ is_in_namespace word.now }
{
    word.as_bytes().iter().any(|byte| *byte == b':')
}

/// Returns the full name of a name in the namespace `own`; `None` is the empty namespace. The only error is `NoMemory`.
pub fn full_name(
    alloc: Global,
    own: &Option<TypeName>,
    word: &TypeName,
) -> Result<TypeName, NoMemory>
    ensures { IfOk result (λ t. t ≡ full_name own.now word.now) }
{
    match own {
        Some(namespace) => word.within(alloc, namespace),
        None => word.copy(),
    }
}

/// Returns the name, if it is declared.
#[tactic(auto, unfolding(crate::specs::Names::as_declared))]
fn as_declared(declared: &BTreeSet<String>, word: &TypeName) -> Result<Option<TypeName>, NoMemory>
    ensures { IfOk result (λ o. o ≡ as_declared (λ q. contains_text declared.now q) word.now) }
{
    if declared.contains(word.as_str()) {
        return Ok(Some(word.copy()?));
    }
    Ok(None)
}

/// Returns the full name of the declaration that a name, used in the namespace `own`, means, if there is one. The only
/// error is `NoMemory`.
#[tactic(auto, unfolding(crate::specs::Names::found))]
pub fn find(
    alloc: Global,
    declared: &BTreeSet<String>,
    own: &Option<TypeName>,
    word: &TypeName,
) -> Result<Option<TypeName>, NoMemory>
    ensures { IfOk result (λ o. o ≡ found (λ q. contains_text declared.now q) own.now word.now) }
{
    if is_qualified(word.as_str()) {
        return as_declared(declared, word);
    }
    let full = full_name(alloc, own, word)?;
    if declared.contains(full.as_str()) {
        return Ok(Some(full));
    }
    as_declared(declared, word)
}

/// Returns the primitive or extension type of this name, if there is one.
#[tactic(auto, unfolding(crate::specs::Names::built_in))]
pub fn built_in(word: &str) -> Option<QualifiedType>
    ensures { option_map qualified_view result ≡ built_in_of word.now }
{
    if word == "String" {
        Some(QualifiedType::Text)
    } else if word == "Long" {
        Some(QualifiedType::Long)
    } else if word == "Boolean" {
        Some(QualifiedType::Boolean)
    } else if word == "Bool" {
        Some(QualifiedType::Boolean)
    } else if word == "ipaddr" {
        Some(QualifiedType::Ipaddr)
    } else if word == "decimal" {
        Some(QualifiedType::Decimal)
    } else {
        None
    }
}

/// Returns whether a name, common types aside, means an entity type, a primitive type or an extension type. The only
/// error is `NoMemory`.
pub fn is_other(
    alloc: Global,
    names: &Names,
    own: &Option<TypeName>,
    word: &TypeName,
) -> Result<bool, NoMemory>
    ensures { IfOk result (λ b. b
        ≡ is_some (or_entity (found (λ q. contains_text names.now.entities q) own.now word.now)
        (built_in_of word.now))) }
{
    match find(alloc, &names.entities, own, word)? {
        Some(_) => Ok(true),
        None => Ok(built_in(word.as_str()).is_some()),
    }
}

/// Returns the type that a name means, if there is one: a common type, else an entity type, else a primitive or
/// extension type.
#[tactic(auto, unfolding(crate::specs::Names::any_named))]
fn find_any(
    alloc: Global,
    names: &Names,
    own: &Option<TypeName>,
    word: &TypeName,
) -> Result<Option<QualifiedType>, NoMemory>
    ensures { IfOk result (λ o. option_map qualified_view o ≡ any_named (scope_of names.now) own.now word.now) }
{
    if let Some(name) = find(alloc, &names.commons, own, word)? {
        return Ok(Some(QualifiedType::Common(name)));
    }
    if let Some(name) = find(alloc, &names.entities, own, word)? {
        return Ok(Some(QualifiedType::Entity(name)));
    }
    Ok(built_in(word.as_str()))
}

/// Returns the entity type that a name means, or `UnknownName` (22).
#[tactic(auto, unfolding(crate::specs::Names::entity_named))]
fn resolve_entity(
    alloc: Global,
    names: &Names,
    own: &Option<TypeName>,
    word: &TypeName,
) -> Result<QualifiedType, SchemaFault>
    ensures { ReadsAs SchemaFault.NoMemory qualified_view result (entity_named (scope_of names.now) own.now word.now) }
{
    match find(alloc, &names.entities, own, word)? {
        Some(name) => Ok(QualifiedType::Entity(name)),
        None => Err(SchemaFault::UnknownName),
    }
}

/// Returns the common type that a name means, or `UnknownName` (22).
#[tactic(auto, unfolding(crate::specs::Names::common_named))]
fn resolve_common(
    alloc: Global,
    names: &Names,
    own: &Option<TypeName>,
    word: &TypeName,
) -> Result<QualifiedType, SchemaFault>
    ensures { ReadsAs SchemaFault.NoMemory qualified_view result (common_named (scope_of names.now) own.now word.now) }
{
    match find(alloc, &names.commons, own, word)? {
        Some(name) => Ok(QualifiedType::Common(name)),
        None => Err(SchemaFault::UnknownName),
    }
}

/// Returns a type with resolved names, given the type as written in the namespace `own`.
///
/// # Errors
///
/// - `UnknownName` (22): a name in the type does not resolve.
/// - `NoMemory` (1): an allocation failed; possible at any point.
#[cycle(resolve)]
#[tactic(auto, unfolding(crate::specs::Names::qualified_of))]
pub fn resolve(
    alloc: Global,
    names: &Names,
    own: &Option<TypeName>,
    ty: &RawType,
) -> Result<QualifiedType, SchemaFault>
    ensures { ReadsAs SchemaFault.NoMemory qualified_view result
        (qualified_of (scope_of names.now) own.now (raw_view ty.now)) }
{
    match ty {
        RawType::Text => Ok(QualifiedType::Text),
        RawType::Long => Ok(QualifiedType::Long),
        RawType::Boolean => Ok(QualifiedType::Boolean),
        RawType::Decimal => Ok(QualifiedType::Decimal),
        RawType::Ipaddr => Ok(QualifiedType::Ipaddr),
        RawType::Set(element) => {
            let element = resolve(alloc, names, own, element)?;
            Ok(QualifiedType::Set(Box::new(alloc, element)?))
        }
        RawType::Record(fields) => Ok(QualifiedType::Record(resolve_fields(
            alloc, names, own, fields,
        )?)),
        RawType::Entity(word) => resolve_entity(alloc, names, own, word),
        RawType::Common(word) => resolve_common(alloc, names, own, word),
        RawType::EntityOrCommon(word) => match find_any(alloc, names, own, word)? {
            Some(found) => Ok(found),
            None => Err(SchemaFault::UnknownName),
        },
    }
}

/// Returns the fields with resolved names.
#[cycle(resolve)]
fn resolve_fields(
    alloc: Global,
    names: &Names,
    own: &Option<TypeName>,
    fields: &Vec<(String, RawType, bool)>,
) -> Result<Vec<(String, QualifiedType, bool)>, SchemaFault>
    ensures { ReadsAs SchemaFault.NoMemory (λ fs. qualified_fields_view fs.items) result
        (fields_of (scope_of names.now) own.now (fields_view fields.now.items)) }
{
    let mut found = Vec::new(alloc);
    for field in fields {
        let ty = resolve(alloc, names, own, &field.1)?;
        let name = String::from_str(alloc, field.0.as_str())?;
        found.push((name, ty, field.2))?;
    }
    Ok(found)
}
