//! The sockets of the machine: a listener, and a socket at each slot of a table of connections, over the readiness that
//! the operating system reports.
#![tactic(auto)]

mod lingering;
mod peers;
mod sockets;
mod watch;

pub use sockets::{ListenFault, SystemSockets};
