//! A test of whether two declared types are the same, by a walk over both in step. The walk builds nothing.
ghost use Rattle.std.specs.Prelude.{◌≡◌, ◌&&◌, Some, None, if◌then◌else◌};
ghost use Rattle.std.specs.Str.{bytes_eq};
ghost use Rattle.typing.specs.Types.{common, common_fields, same_requirement};
ghost use Rattle.schema_types.specs.CedarViews.{cedar_view, cedar_fields_view};
ghost use Rattle.type_checker.specs.FromSchemas.{static, static_fields};
ghost use Rattle.type_checker.specs.inner.Layers.{layer_view};

use plain::Text;
use schema_types::CedarType;
use values::TypeName;

/// A declared type, by its outermost layer.
#[derive(Clone, Copy)]
enum Layer<'a> {
    Text,
    Long,
    Boolean,
    Decimal,
    Ipaddr,
    Set(&'a CedarType),
    Record(&'a [(Text, CedarType, bool)]),
    Entity(&'a TypeName),
}

/// Returns a declared type by its outermost layer.
fn outermost<'a>(ty: &'a CedarType) -> Layer<'a>
    ensures { layer_view result ≡ static (cedar_view ty.now) }
{
    match ty {
        CedarType::Text => Layer::Text,
        CedarType::Long => Layer::Long,
        CedarType::Boolean => Layer::Boolean,
        CedarType::Decimal => Layer::Decimal,
        CedarType::Ipaddr => Layer::Ipaddr,
        CedarType::Set(element) => Layer::Set(element),
        CedarType::Record(fields) => Layer::Record(fields.as_slice()),
        CedarType::Entity(name) => Layer::Entity(name),
    }
}

/// Returns whether two fields have the same key and the same requirement.
fn same_key(left: &(Text, CedarType, bool), right: &(Text, CedarType, bool)) -> bool
    ensures { result ≡ (bytes_eq left.now.0 right.now.0 && same_requirement left.now.2 right.now.2) }
{
    left.0.as_str() == right.0.as_str() && left.2 == right.2
}

/// Returns whether two declared types are the same. If they are, their common type is the left type; else they have
/// none. Does not allocate.
#[cycle(same_type)]
fn same_type(left: &CedarType, right: &CedarType) -> bool
    ensures { let t = static (cedar_view left.now) in
        common t (static (cedar_view right.now)) ≡ (if result then Some t else None) }
{
    match (outermost(left), outermost(right)) {
        (Layer::Text, Layer::Text) => true,
        (Layer::Long, Layer::Long) => true,
        (Layer::Boolean, Layer::Boolean) => true,
        (Layer::Decimal, Layer::Decimal) => true,
        (Layer::Ipaddr, Layer::Ipaddr) => true,
        (Layer::Set(a), Layer::Set(b)) => same_type(a, b),
        (Layer::Record(a), Layer::Record(b)) => same_fields(a, b),
        (Layer::Entity(a), Layer::Entity(b)) => a.as_str() == b.as_str(),
        _ => false,
    }
}

/// Returns whether two declared records have the same fields: the same keys, requirements and types, in order.
#[cycle(same_type)]
pub(crate) fn same_fields(
    left: &[(Text, CedarType, bool)],
    right: &[(Text, CedarType, bool)],
) -> bool
    ensures { let ts = static_fields (cedar_fields_view left.now) in
        common_fields ts (static_fields (cedar_fields_view right.now)) ≡ (if result then Some ts else None) }
{
    let count = left.len();
    if right.len() != count {
        return false;
    }
    for at in 0..count {
        let one = &left[at];
        let other = &right[at];
        if !same_key(one, other) {
            return false;
        }
        if !same_type(&one.1, &other.1) {
            return false;
        }
    }
    true
}
