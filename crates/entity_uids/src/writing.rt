//! Writing uids as JSON, token by token.
ghost use Rattle.std.specs.Prelude.{OnOk};
ghost use Rattle.entity_uids.specs.Tokens.{AppendsTokens, tokens_of};
ghost use Rattle.entity_uids.specs.Uids.{uid_json, entity_json};

use json::Writer;
use plain::NoMemory;
use values::EntityUid;

/// Appends a uid, such as `{"id":"alice","type":"User"}`.
///
/// # Errors
///
/// - `NoMemory`: an allocation failed. The output must then not be used.
pub fn write_uid(out: &mut Writer, uid: &EntityUid) -> Result<(), NoMemory>
    ensures { OnOk result (AppendsTokens out.old out.new (tokens_of (uid_json uid.now))) }
{
    out.begin_object()?;
    out.key("id")?;
    out.string(uid.id.as_str())?;
    out.key("type")?;
    out.string(uid.type_name.as_str())?;
    out.end_object()?;
    Ok(())
}

/// Appends a uid as an attribute's value, such as `{"__entity":{"id":"alice","type":"User"}}`.
///
/// # Errors
///
/// - `NoMemory`: an allocation failed. The output must then not be used.
pub fn write_entity(out: &mut Writer, uid: &EntityUid) -> Result<(), NoMemory>
    ensures { OnOk result (AppendsTokens out.old out.new (tokens_of (entity_json uid.now))) }
{
    out.begin_object()?;
    out.key("__entity")?;
    write_uid(out, uid)?;
    out.end_object()?;
    Ok(())
}
