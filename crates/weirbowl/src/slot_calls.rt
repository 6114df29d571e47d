//! Calls of the site of a slot.
ghost use Rattle.std.specs.Prelude.{◌≡◌, length};
ghost use Rattle.http_replies.specs.site.Inputs.{input_of};
ghost use Rattle.weirbowl.specs.Copies.{copied};
ghost use Rattle.weirbowl.specs.SlotCalls.{Calls, Opens, Closes, RepeatsBody, not_open};

use crate::call_result::CallResult;
use crate::copying::copy_out;
use crate::embedded::EmbeddedSite;
use crate::pointer::SitePointer;
use crate::raw_box::RawBox;
use crate::slot::SiteSlot;
use http::StatusCode;
use http_replies::Input;
use std::alloc::Global;

/// Returns the result of a call on a slot where no site is open: status 0 and length 0.
fn not_open() -> CallResult
    ensures { result ≡ not_open }
{
    CallResult {
        status: 0,
        length: 0,
    }
}

/// Copies the body of a reply into `out`, if it fits. Returns the status of the reply and the length of the body.
fn report(status: StatusCode, body: &[u8], out: &mut [u8]) -> CallResult
    ensures told { result ≡ record { status = status; length = length body.now } }
    ensures copied { out.new ≡ copied body.now out.old }
{
    copy_out(body, out);
    CallResult {
        status: u32::from(status.as_u16()),
        length: body.len(),
    }
}

/// Opens an empty site in a slot. Returns 0 on success, 3 if a site is open there already, else the number of the
/// error.
pub(crate) fn open_slot(alloc: Global, slot: &mut SiteSlot, schema: &[u8], name: &[u8]) -> u32
    ensures { Opens slot.old.pointer.site schema.now name.now result slot.new.pointer.site }
{
    if slot.is_open {
        return 3;
    }
    match EmbeddedSite::open(alloc, schema, name) {
        Ok(site) => match Box::new(alloc, site) {
            Ok(opened) => {
                slot.pointer = SitePointer::to(RawBox::from_box(opened));
                slot.is_open = true;
                0
            }
            Err(_) => 1,
        },
        Err(error) => u32::from(error.code()),
    }
}

/// Closes the site of a slot. Returns whether one was open.
pub(crate) fn close_slot(alloc: Global, slot: &mut SiteSlot) -> bool
    ensures { Closes slot.old.pointer.site result slot.new.pointer.site }
{
    if !slot.is_open {
        return false;
    }
    let closed = slot.pointer.take(alloc);
    slot.is_open = false;
    drop(closed);
    true
}

/// Gives an input to the site in a slot, and copies the body of its reply into `out`, if it fits.
pub(crate) fn call_slot(
    alloc: Global,
    slot: &mut SiteSlot,
    input: &Input<'_>,
    out: &mut [u8],
) -> CallResult
    ensures { Calls slot.old.pointer.site (input_of input.now) result out.old out.new slot.new.pointer.site }
{
    if !slot.is_open {
        return not_open();
    }
    let mut boxed = slot.pointer.take(alloc);
    let status = boxed.call(input);
    let outcome = report(status, boxed.body(), out);
    slot.pointer = SitePointer::to(RawBox::from_box(boxed));
    outcome
}

/// Copies the body of the last reply into `out` again, if it fits.
pub(crate) fn repeat_body(alloc: Global, slot: &mut SiteSlot, out: &mut [u8]) -> CallResult
    ensures { RepeatsBody slot.old.pointer.site result out.old out.new slot.new.pointer.site }
{
    if !slot.is_open {
        return not_open();
    }
    let held = slot.pointer.take(alloc);
    let outcome = report(StatusCode::OK, held.body(), out);
    slot.pointer = SitePointer::to(RawBox::from_box(held));
    outcome
}
