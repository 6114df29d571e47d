//! Entities in requests: named by a uid as JSON, or by one string.
ghost use Rattle.std.specs.Prelude.{◌≢◌, IfOk, OnOk};
ghost use Rattle.serde_json.specs.View.{view};
ghost use Rattle.policy_grammar.specs.declared.fault.ReadFault.TheVariants as ReadFault;
ghost use Rattle.policy_grammar.specs.PolicyText.{IsUidText};
ghost use Rattle.entity_uids.specs.Uids.{IsRead, NamesEntity};

use crate::uids::read_uid;
use plain::NoMemory;
use policy_grammar::{ReadFault, parse_uid, texts_have_one_reading};
use serde_json::Value;
use std::alloc::Global;
use values::EntityUid;

/// Returns the error `NoMemory` for a failed allocation, and `Ok` for any other error.
fn refused(fault: ReadFault) -> Result<(), NoMemory>
    ensures { OnOk result (fault ≢ ReadFault.NoMemory) }
{
    match fault {
        ReadFault::NoMemory => Err(NoMemory),
        _ => Ok(()),
    }
}

/// Returns the entity that a string in policy syntax names; `None` if it names none.
fn read_text(alloc: Global, text: &str) -> Result<Option<EntityUid>, NoMemory>
    ensures { IfOk result (IsRead (IsUidText text.now)) }
{
    match parse_uid(alloc, text) {
        Ok(uid) => Ok(Some(uid)),
        Err(fault) => {
            refused(fault)?;
            texts_have_one_reading();
            Ok(None)
        }
    }
}

/// Returns the entity that a value names where a string is allowed, as for a request's principal. The value is a string
/// in policy syntax (`User::"alice"`), or a uid as [`read_uid`] parses it. `None` if it is neither. The only error is
/// `NoMemory`.
pub fn read_name(alloc: Global, value: &Value) -> Result<Option<EntityUid>, NoMemory>
    ensures { IfOk result (IsRead (NamesEntity (view value.now))) }
{
    match value.as_str() {
        Some(text) => read_text(alloc, text),
        None => read_uid(alloc, value),
    }
}
