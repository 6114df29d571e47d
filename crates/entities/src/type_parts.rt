//! The parts of a declared type: the type of a set's members, a record's fields, and the type of a field.
ghost use Rattle.std.specs.Prelude.{◌≡◌, option_map};
ghost use Rattle.schema_types.specs.CedarViews.{cedar_view, cedar_fields_view};
ghost use Rattle.entities.specs.Parts.{element_of, fields_in, declared_at};

use plain::Text;
use schema_types::CedarType;

/// A field of a record type: its name, its type, and whether it is required.
pub type Field = (Text, CedarType, bool);

/// Returns the type of a set's members; `None` if the type is not a set type. Does not allocate.
pub fn element_type(ty: &CedarType) -> Option<&CedarType>
    ensures { option_map (λ t. cedar_view t.now) result ≡ element_of (cedar_view ty.now) }
{
    match ty {
        CedarType::Set(element) => Some(element),
        _ => None,
    }
}

/// Returns the fields of a record type; `None` if the type is not a record type. Does not allocate.
pub fn record_fields(ty: &CedarType) -> Option<&[Field]>
    ensures { option_map (λ fs. cedar_fields_view fs.now) result ≡ fields_in (cedar_view ty.now) }
{
    match ty {
        CedarType::Record(fields) => Some(fields.as_slice()),
        _ => None,
    }
}

/// Returns the type of the first field of this name, or `None` if no field has the name.
///
/// O(n), where n is the number of fields. Does not allocate.
pub fn declared_type<'t>(fields: &'t [Field], name: &str) -> Option<&'t CedarType>
    ensures { option_map (λ t. cedar_view t.now) result ≡ declared_at name.now (cedar_fields_view fields.now) }
{
    for field in fields {
        if field.0.as_str() == name {
            return Some(&field.1);
        }
    }
    None
}
