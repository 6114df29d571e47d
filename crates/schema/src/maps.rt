//! Insertion into maps.
ghost use Rattle.std.specs.Prelude.{Some, OnOk};
ghost use Rattle.std.specs.BTreeMap.{Updates};

use plain::NoMemory;
use std::collections::BTreeMap;

/// Sets the value of a key, replacing its earlier value, if there is one. The only error is `NoMemory`.
pub(crate) fn put<K: Ord + Drop, V: Drop>(
    map: &mut BTreeMap<K, V>,
    key: K,
    value: V,
) -> Result<(), NoMemory>
    ensures { OnOk result (Updates K.cmp map.old map.new key (Some value)) }
{
    map.insert(key, value)?;
    Ok(())
}
