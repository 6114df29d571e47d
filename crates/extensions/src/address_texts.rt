//! Parsing and writing of addresses without a prefix (such as `/24`), and parsing of the lengths of prefixes.
ghost use Rattle.std.specs.Prelude.{◌≡◌, ℕ, ◌+◌, ◌^◌, ◌<◌, ◌≤◌, ◌↔◌, ◌++◌, length};
ghost use Rattle.std.specs.Prelude.{slice_index, IsTrue, IsNone, IfSome, string_bytes, string_len};
ghost use Rattle.std.specs.Prelude.{string_capacity};
ghost use Rattle.std.specs.Fmt.{decimal};
ghost use Rattle.extensions.specs.declared.ip_net.Version.{Version};
ghost use Rattle.extensions.specs.declared.ip_net.Version.TheVariants.{V4, V6};
ghost use Rattle.extensions.specs.Network.{width};
ghost use Rattle.extensions.specs.NetworkText.{IsAddressText, ipv4_text, ipv6_text};
ghost use Rattle.extensions.specs.NetworkText.{groups_text};

use crate::ip_net::Version;
use crate::pieces::{append, append_decimal_byte, append_group};
use std::net::{Ipv4Addr, Ipv6Addr};

/// Parses an address without a prefix; returns it with its version, or `None` if the string is not an address.
pub(crate) fn address_of_text(text: &str) -> Option<(Version, u128)>
    ensures some { IfSome result (λ a. IsAddressText a.0 text.now a.1) }
    ensures fits { IfSome result (λ a. a.1 < 2 ^ width a.0) }
    ensures none { IsNone result → (v : Version) (n : ℕ) → ¬ (IsAddressText v text.now n) }
{
    if let Some(address) = ipv4_of_text(text) {
        return Some((Version::V4, u128::from(address)));
    }
    let address = ipv6_of_text(text)?;
    Some((Version::V6, address))
}

/// Parses an IPv4 address. Returns `None` for any other string.
fn ipv4_of_text(text: &str) -> Option<u32>
    ensures some { IfSome result (IsAddressText V4 text.now) }
    ensures none { IsNone result → (n : ℕ) → ¬ (IsAddressText V4 text.now n) }
{
    match text.parse::<Ipv4Addr>() {
        Ok(address) => Some(address.to_bits()),
        Err(_) => None,
    }
}

/// Parses an IPv6 address without an embedded IPv4 address. Returns `None` for any other string.
fn ipv6_of_text(text: &str) -> Option<u128>
    ensures some { IfSome result (IsAddressText V6 text.now) }
    ensures none { IsNone result → (n : ℕ) → ¬ (IsAddressText V6 text.now n) }
{
    if text.contains('.') {
        return None;
    }
    match text.parse::<Ipv6Addr>() {
        Ok(address) => Some(address.to_bits()),
        Err(_) => None,
    }
}

/// Parses the length of a prefix, the text after a `/`: a decimal number without leading zeros, at most `bits`. Returns
/// `None` for any other string.
pub(crate) fn prefix_of_text(text: &str, bits: u8) -> Option<u8>
    ensures some { IfSome result (λ p. (text.now ≡ decimal p) × (p ≤ bits)) }
    ensures none { IsNone result → (p : ℕ) → p ≤ bits → ¬ (text.now ≡ decimal p) }
{
    let prefix = decimal_of_text(text)?;
    if prefix <= bits { Some(prefix) } else { None }
}

/// Parses a decimal number up to 255 without leading zeros. Returns `None` for any other string.
fn decimal_of_text(text: &str) -> Option<u8>
    ensures some { IfSome result (λ n. text.now ≡ decimal n) }
    ensures none { IsNone result → (n : ℕ) → n < 256 → ¬ (text.now ≡ decimal n) }
{
    if text.starts_with('+') {
        return None;
    }
    if is_padded(text) {
        return None;
    }
    match text.parse::<u8>() {
        Ok(n) => Some(n),
        Err(_) => None,
    }
}

/// Returns whether a string begins with `0` and has more characters.
fn is_padded(text: &str) -> bool
    ensures { IsTrue result ↔ ((slice_index text.now 0 ≡ 48) × (1 < length text.now)) }
{
    text.starts_with('0') && text.len() > 1
}

/// Appends the IPv4 address in the low 32 bits of `address` as four decimal numbers with `.` between them, in at most
/// 15 bytes. `out` must have capacity for 15 more bytes.
pub(crate) fn append_ipv4(address: u128, out: &mut String)
    requires { string_len out.old + 15 ≤ string_capacity out.old }
    ensures bytes { string_bytes out.new ≡ string_bytes out.old ++ ipv4_text address }
    ensures len { string_len out.new ≤ string_len out.old + 15 }
    ensures capacity { string_capacity out.old ≤ string_capacity out.new }
{
    append_decimal_byte(out, (address / 0x100_0000 % 256) as u8);
    append(out, ".");
    append_decimal_byte(out, (address / 0x1_0000 % 256) as u8);
    append(out, ".");
    append_decimal_byte(out, (address / 0x100 % 256) as u8);
    append(out, ".");
    append_decimal_byte(out, (address % 256) as u8)
}

/// Appends an IPv6 address as eight groups of hexadecimal digits with `:` between them, in at most 39 bytes. `out` must
/// have capacity for 39 more bytes.
pub(crate) fn append_ipv6(address: u128, out: &mut String)
    requires { string_len out.old + 39 ≤ string_capacity out.old }
    ensures bytes { string_bytes out.new ≡ string_bytes out.old ++ ipv6_text address }
    ensures len { string_len out.new ≤ string_len out.old + 39 }
    ensures capacity { string_capacity out.old ≤ string_capacity out.new }
{
    append_groups((address / 0x1_0000_0000_0000_0000) as u64, out);
    append(out, ":");
    append_groups((address % 0x1_0000_0000_0000_0000) as u64, out)
}

/// Appends a number of 64 bits as four groups of hexadecimal digits with `:` between them, in at most 19 bytes. `out`
/// must have capacity for 19 more bytes.
fn append_groups(groups: u64, out: &mut String)
    requires { string_len out.old + 19 ≤ string_capacity out.old }
    ensures bytes { string_bytes out.new ≡ string_bytes out.old ++ groups_text groups }
    ensures len { string_len out.new ≤ string_len out.old + 19 }
    ensures capacity { string_capacity out.old ≤ string_capacity out.new }
{
    append_group(out, (groups / 0x1_0000_0000_0000) as u32);
    append(out, ":");
    append_group(out, (groups / 0x1_0000_0000 % 0x1_0000) as u32);
    append(out, ":");
    append_group(out, (groups / 0x1_0000 % 0x1_0000) as u32);
    append(out, ":");
    append_group(out, (groups % 0x1_0000) as u32)
}
