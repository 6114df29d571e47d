//! The extension values of the policy language: decimals, and IP addresses with a prefix. They are parsed from
//! strings, compared, and written as canonical strings.
//!
//! Parsing and comparing do not allocate. Writing reserves capacity for the longest canonical string before it appends
//! anything.
#![tactic(auto)]

mod address_texts;
pub mod decimal;
pub mod ip_net;
mod pieces;

pub use decimal::Decimal;
pub use ip_net::{IpNet, Version};

// of lower layers
pub use plain::words::{letter, word_len};
pub use plain::{NoMemory, Shared, Text};
