//! The exports for C that use the site of a slot, the memory that a C program keeps for a site.
//!
//! Opening returns a number, and closing a boolean. Each other call copies the body of its reply to the beginning of
//! `out`, if `out` is long enough, and returns the reply's status and the body's length. If no site is open, it does
//! nothing and returns the status 0.
ghost use Rattle.http_replies.specs.site.Inputs as input;
ghost use Rattle.weirbowl.specs.SlotCalls.{Calls, Opens, Closes, RepeatsBody};

use crate::call_result::CallResult;
use crate::slot::SiteSlot;
use crate::slot_calls::{call_slot, close_slot, open_slot, repeat_body};
use http_replies::Input;
use std::alloc::Global;

/// Opens an empty site in the slot. Returns 0 on success, 3 if a site was open there already, and else the code of the
/// error: 2 for the name, 20 to 25 for the schema, 1 if out of memory.
#[unsafe(no_mangle)]
pub extern "C" fn weirbowl_open(
    alloc: Global,
    slot: &mut SiteSlot,
    schema: &[u8],
    name: &[u8],
) -> u32
    ensures { Opens slot.old.pointer.site schema.now name.now result slot.new.pointer.site }
{
    open_slot(alloc, slot, schema, name)
}

/// Closes the site. Returns whether one was open.
#[unsafe(no_mangle)]
pub extern "C" fn weirbowl_close(alloc: Global, slot: &mut SiteSlot) -> bool
    ensures { Closes slot.old.pointer.site result slot.new.pointer.site }
{
    close_slot(alloc, slot)
}

/// Copies the body of the last reply to `out` again. The status is 200, whatever the status of the last reply.
#[unsafe(no_mangle)]
pub extern "C" fn weirbowl_last_body(
    alloc: Global,
    slot: &mut SiteSlot,
    out: &mut [u8],
) -> CallResult
    ensures { RepeatsBody slot.old.pointer.site result out.old out.new slot.new.pointer.site }
{
    repeat_body(alloc, slot, out)
}

/// Decides the request with this JSON.
#[unsafe(no_mangle)]
pub extern "C" fn weirbowl_authorize(
    alloc: Global,
    slot: &mut SiteSlot,
    request: &[u8],
    out: &mut [u8],
) -> CallResult
    ensures { Calls slot.old.pointer.site (input.Authorize request.now) result out.old out.new slot.new.pointer.site }
{
    call_slot(alloc, slot, &Input::Authorize(request), out)
}

/// Puts the policy with this id and this text.
#[unsafe(no_mangle)]
pub extern "C" fn weirbowl_put_policy(
    alloc: Global,
    slot: &mut SiteSlot,
    id: &[u8],
    text: &[u8],
    out: &mut [u8],
) -> CallResult
    ensures { Calls slot.old.pointer.site (input.PutPolicy id.now text.now) result out.old out.new
        slot.new.pointer.site }
{
    call_slot(alloc, slot, &Input::PutPolicy(id, text), out)
}

/// Looks up the policy with this id.
#[unsafe(no_mangle)]
pub extern "C" fn weirbowl_get_policy(
    alloc: Global,
    slot: &mut SiteSlot,
    id: &[u8],
    out: &mut [u8],
) -> CallResult
    ensures { Calls slot.old.pointer.site (input.GetPolicy id.now) result out.old out.new slot.new.pointer.site }
{
    call_slot(alloc, slot, &Input::GetPolicy(id), out)
}

/// Deletes the policy with this id.
#[unsafe(no_mangle)]
pub extern "C" fn weirbowl_delete_policy(
    alloc: Global,
    slot: &mut SiteSlot,
    id: &[u8],
    out: &mut [u8],
) -> CallResult
    ensures { Calls slot.old.pointer.site (input.DeletePolicy id.now) result out.old out.new slot.new.pointer.site }
{
    call_slot(alloc, slot, &Input::DeletePolicy(id), out)
}

/// Puts the entity with this JSON.
#[unsafe(no_mangle)]
pub extern "C" fn weirbowl_put_entity(
    alloc: Global,
    slot: &mut SiteSlot,
    entity: &[u8],
    out: &mut [u8],
) -> CallResult
    ensures { Calls slot.old.pointer.site (input.PutEntity entity.now) result out.old out.new slot.new.pointer.site }
{
    call_slot(alloc, slot, &Input::PutEntity(entity), out)
}

/// Deletes the entity with the uid in this JSON.
#[unsafe(no_mangle)]
pub extern "C" fn weirbowl_delete_entity(
    alloc: Global,
    slot: &mut SiteSlot,
    uid: &[u8],
    out: &mut [u8],
) -> CallResult
    ensures { Calls slot.old.pointer.site (input.DeleteEntity uid.now) result out.old out.new slot.new.pointer.site }
{
    call_slot(alloc, slot, &Input::DeleteEntity(uid), out)
}

/// Writes the state, as a message to other sites.
#[unsafe(no_mangle)]
pub extern "C" fn weirbowl_state(alloc: Global, slot: &mut SiteSlot, out: &mut [u8]) -> CallResult
    ensures { Calls slot.old.pointer.site input.State result out.old out.new slot.new.pointer.site }
{
    call_slot(alloc, slot, &Input::State, out)
}

/// Writes the summary, as a message to other sites.
#[unsafe(no_mangle)]
pub extern "C" fn weirbowl_summary(alloc: Global, slot: &mut SiteSlot, out: &mut [u8]) -> CallResult
    ensures { Calls slot.old.pointer.site input.Summary result out.old out.new slot.new.pointer.site }
{
    call_slot(alloc, slot, &Input::Summary, out)
}

/// Writes a delta: the entries whose names `summary` lacks or has with a smaller stamp.
#[unsafe(no_mangle)]
pub extern "C" fn weirbowl_delta(
    alloc: Global,
    slot: &mut SiteSlot,
    summary: &[u8],
    out: &mut [u8],
) -> CallResult
    ensures { Calls slot.old.pointer.site (input.Delta summary.now) result out.old out.new slot.new.pointer.site }
{
    call_slot(alloc, slot, &Input::Delta(summary), out)
}

/// Applies the updates of a message: a state or a delta of another site.
#[unsafe(no_mangle)]
pub extern "C" fn weirbowl_merge(
    alloc: Global,
    slot: &mut SiteSlot,
    message: &[u8],
    out: &mut [u8],
) -> CallResult
    ensures { Calls slot.old.pointer.site (input.Take message.now) result out.old out.new slot.new.pointer.site }
{
    call_slot(alloc, slot, &Input::Take(message), out)
}
