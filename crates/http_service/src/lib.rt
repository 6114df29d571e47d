//! The HTTP service over a site: what requests ask for, the answers to requests and to streams of requests, and the
//! line that a log gets for each request.
//!
//! Nothing here opens a socket or writes to a file: lines are made in memory, and a stream writes each before its
//! reply. `http_replies` defines the reply to an input of a site, which is one step of the site.
#![tactic(auto)]

mod handlers;
mod laws;
mod log_laws;
mod log_line;
mod log_pieces;
mod path;
mod route;
mod routing;
mod serving;
mod site_service;
mod together;

pub use laws::{
    change_lines_have_stamps, connections_leave_runs, cuts_make_no_difference,
    requests_have_one_reply, served_answers_are_sound, served_lines_are_one_line,
    served_streams_are_answered, streams_leave_runs,
};
pub use log_laws::{decision_lines_name_requests, lines_have_one_line_feed};
pub use route::Route;
pub use routing::route_of;
pub use serving::{serve, serve_logged};
pub use site_service::{LoggedService, SiteService};
pub use together::{ServingMemory, serve_connections};

// of this layer
pub use connection_loop::limits::Limits;
pub use connection_loop::turn::LoopFault;
pub use http_replies::{
    LINE_ROOM, fault_place, report_fault, report_put, report_stamp, report_taken,
};
pub use http_streams::fetch::{FetchFault, fetch};
pub use http_streams::serve::{LoggedFault, StreamFault};
pub use http_streams::{Ask, Counted, Fed, Kept, Plan, Sink, Source};

// of lower layers
pub use http_replies::{
    Answer, Event, EventReply, Found, Input, Operation, Place, Put, Refusal, Reply, Site,
    SiteFault, SiteName, Stamp, Taken, World, answer_line, error_line, simulate,
};

/// An upper bound of the bytes of a line without method and target.
pub const MOST_UNREAD_LINE: usize = 64;

/// An upper bound of the bytes that follow method and target in a line that reports a change, or only a status.
pub const MOST_TAIL: usize = 192;

/// An upper bound of the bytes in the body of a reply to a change.
pub const MOST_STAMP: usize = 128;
