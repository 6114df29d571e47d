//! Functions that drop types. They are not generic, so that a crate that calls them does not prove the drop code of
//! types again.
ghost use Rattle.std.specs.Prelude.{◌≡◌, take};

use crate::static_type::StaticType;

/// Drops a type.
pub fn drop_type(kind: StaticType<'_>) {
    drop(kind);
}

/// Drops a list of types.
pub fn drop_types(types: Vec<StaticType<'_>>) {
    drop(types);
}

/// Keeps the first `count` types of a list, and drops the others.
pub fn truncate_types(types: &mut Vec<StaticType<'_>>, count: usize)
    ensures { types.new.items ≡ take count types.old.items }
{
    types.truncate(count);
}
