//! The commands of the program, with its files, streams and connections, over any machine.
#![tactic(auto)]

mod commands;
mod device;
mod drills;
mod exchanging;
mod explaining;
mod host;
mod initial_site;
mod loads;
mod reading;
mod rejecting;
mod report;
mod running;
mod serving;
mod states;
mod system;

pub use device::{FileFault, Link, NetworkFailed, Stream, StreamFailed};
pub use host::Host;
pub use report::report_words;
pub use running::run;
pub use system::SystemHost;

// of this layer
pub use program_drills::drill_text;
pub use program_exchanges::{NetworkFault, PullFault, Pulled, merge_texts, pull_over};
pub use program_lines::{
    CheckOptions, DecideOptions, DrillOptions, ExchangeOptions, ExplainOptions, Line, LineFault,
    LoadOptions, MergeOptions, PullOptions, ServeOptions, line_of,
};

// of lower layers
pub use program_drills::{Refusal, check_texts, decide_under};
pub use program_lines::SiteName;
pub use site_loading::decide_texts;
