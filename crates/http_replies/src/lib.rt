//! Inputs of a site, each answered by a status and a body: the reply to each outcome.
//!
//! Routes and streams are not in this crate. The body of a reply is one line of compact JSON. The bodies of replies to
//! changes, and of errors of any kind, need no allocation: they are appended to a text with enough spare capacity.
#![tactic(auto)]

mod answering;
mod laws;
mod line;
mod long;
mod replying;
mod reporting;
mod status;

pub use answering::reply_to;
pub use laws::{errors_have_one_line, stamps_have_plain_lines};
pub use reporting::{
    fault_place, report_answer, report_fault, report_found, report_message, report_put,
    report_stamp, report_status, report_taken,
};

// of lower layers
pub use answer_lines::{Answer, Place, Refusal, answer_line, error_line};
pub use site::{
    Event, EventReply, Found, Input, Operation, Put, Reply, Scratch, Site, SiteFault, SiteName,
    Stamp, Taken, World, inputs_have_one_outcome, is_site_name, runs_are_sound,
    runs_leave_what_they_took, simulate, site_names_are_recognized,
};

/// The number of bytes that suffices for the body of a reply to a change, or of an error.
pub const LINE_ROOM: usize = 128;
