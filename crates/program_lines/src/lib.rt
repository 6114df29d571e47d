//! The command line: from arguments to a command with its options.
#![tactic(auto)]

mod app;
mod fault;
mod line;
mod options;

pub use fault::LineFault;
pub use line::{
    CheckOptions, DecideOptions, DrillOptions, ExchangeOptions, ExplainOptions, Line, LoadOptions,
    MergeOptions, PullOptions, ServeOptions, line_of,
};

// of lower layers
pub use stamped_store::SiteName;
