//! Capabilities, each an expression and the name of a field, in a stack with an ordered map for look-ups.
//!
//! The order of capabilities, by names and then by expressions, is only for these look-ups, and has no meaning in the
//! policy language.
#![tactic(auto)]

mod capability;
mod capability_stack;
mod compared;
mod laws;
mod leaves;

pub use capability::Capability;
pub use capability_stack::Capabilities;
pub use compared::compare;
pub use laws::capabilities_are_ordered;
