//! The replacement of each common type by its definition.
ghost use Rattle.std.specs.Prelude.{◌≡◌, IfOk, option_map, option_and_then};
ghost use Rattle.schema_types.specs.inner.Table.{IsCounted, written_in, fields_in};
ghost use Rattle.schema_types.specs.TableViews.{type_table};
ghost use Rattle.schema_types.specs.QualifiedViews.{qualified_view, qualified_fields_view};
ghost use Rattle.schema_types.specs.CedarViews.{cedar_view, cedar_fields_view};

use crate::Table;
use crate::cedar::CedarType;
use crate::qualified::QualifiedType;
use plain::{Items, NoMemory, Shared, Text};
use std::alloc::Global;

/// Returns the expansion of a common type, if the table has it.
fn known_type(name: &str, table: &Table) -> Result<Option<CedarType>, NoMemory>
    ensures { IfOk result (λ o. option_map cedar_view o
        ≡ option_and_then (λ k. k.whole) (type_table table.now name.now)) }
{
    match table.get(name) {
        Some(known) => match &known.whole {
            Some(ty) => Ok(Some(ty.copy()?)),
            None => Ok(None),
        },
        None => Ok(None),
    }
}

/// Returns the expansion of a type, or `None` if the table lacks the expansion of a common type that the type mentions.
///
/// The size of the expansion must be within the limits, so that no type that is too large is built.
pub(crate) fn write(
    alloc: Global,
    ty: &QualifiedType,
    table: &Table,
) -> Result<Option<CedarType>, NoMemory>
    requires { IsCounted (type_table table.now) (qualified_view ty.now) }
    ensures { IfOk result (λ o. option_map cedar_view o ≡ written_in (type_table table.now) (qualified_view ty.now)) }
{
    write_type(alloc, ty, table)
}

/// Returns the expansion of a type, or `None` if the table lacks the expansion of a common type that the type mentions.
#[cycle(write_type)]
#[tactic(auto, unfolding(crate::specs::inner::Table::written_in))]
fn write_type(
    alloc: Global,
    ty: &QualifiedType,
    table: &Table,
) -> Result<Option<CedarType>, NoMemory>
    ensures { IfOk result (λ o. option_map cedar_view o ≡ written_in (type_table table.now) (qualified_view ty.now)) }
{
    match ty {
        QualifiedType::Text => Ok(Some(CedarType::Text)),
        QualifiedType::Long => Ok(Some(CedarType::Long)),
        QualifiedType::Boolean => Ok(Some(CedarType::Boolean)),
        QualifiedType::Decimal => Ok(Some(CedarType::Decimal)),
        QualifiedType::Ipaddr => Ok(Some(CedarType::Ipaddr)),
        QualifiedType::Set(element) => match write_type(alloc, element, table)? {
            Some(element) => Ok(Some(CedarType::Set(Shared::new(alloc, element)?))),
            None => Ok(None),
        },
        QualifiedType::Record(fields) => match write_fields(alloc, fields, table)? {
            Some(fields) => Ok(Some(CedarType::Record(Shared::new(alloc, fields)?))),
            None => Ok(None),
        },
        QualifiedType::Entity(name) => Ok(Some(CedarType::Entity(name.copy()?))),
        QualifiedType::Common(name) => known_type(name.as_str(), table),
    }
}

/// Returns the expansions of the fields, or `None` if the table lacks the expansion of a common type that the fields
/// mention.
#[cycle(write_type)]
#[tactic(auto, unfolding(crate::specs::inner::Table::written_in))]
fn write_fields(
    alloc: Global,
    fields: &Vec<(String, QualifiedType, bool)>,
    table: &Table,
) -> Result<Option<Items<(Text, CedarType, bool)>>, NoMemory>
    ensures { IfOk result (λ o. option_map (λ fs. cedar_fields_view fs) o
        ≡ fields_in (type_table table.now) (qualified_fields_view fields.now.items)) }
{
    let mut written = Vec::new(alloc);
    for field in fields {
        match write_type(alloc, &field.1, table)? {
            Some(ty) => {
                let name = Text::from_str(alloc, field.0.as_str())?;
                written.push((name, ty, field.2))?;
            }
            None => return Ok(None),
        }
    }
    Ok(Some(Items::from_vec(written)))
}
