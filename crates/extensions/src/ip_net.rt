//! Networks: IP addresses with a prefix.
ghost use Rattle.std.specs.Prelude.{◌≡◌, ℕ, ◌+◌, ◌/◌, ◌^◌, ◌<◌, ◌≤◌, ◌↔◌, ◌++◌, ◌⊎◌, List};
ghost use Rattle.std.specs.Prelude.{IsTrue, IsNone, IfSome, OnOk, OnErr, string_bytes, string_len};
ghost use Rattle.std.specs.Prelude.{string_capacity, Some, refl};
ghost use Rattle.extensions.specs.declared.ip_net.Version.{Version};
ghost use Rattle.extensions.specs.declared.ip_net.Version.TheVariants.{V4, V6};
ghost use Rattle.extensions.specs.Network.{width, Network, IsNetwork, size, least, greatest, IsWithin};
ghost use Rattle.std.specs.Cmp.{IsTotalOrder};
ghost use Rattle.std.specs.declared.cmp.Ordering.TheVariants.{Equal};
ghost use Rattle.extensions.specs.Order.{network_cmp};
ghost use Rattle.extensions.specs.NetworkText.{IsNetworkText, network_text};
ghost use Rattle.extensions.specs.Decided.{is_proved};
ghost use Rattle.extensions.specs.TextsDecided.{network_of, within_decided};

use crate::address_texts::{address_of_text, append_ipv4, append_ipv6, prefix_of_text};
use crate::pieces::{append, append_decimal_byte};
use plain::NoMemory;
use std::cmp::Ordering;
use std::marker::Model;

/// The number of bytes of the longest canonical string: eight groups of four digits, seven colons, `/` and three
/// digits.
const MOST: usize = 43;

/// The versions of the Internet Protocol.
#[derive(Clone, Copy, PartialEq, Eq)]
pub enum Version {
    /// Addresses of 32 bits.
    V4,
    /// Addresses of 128 bits.
    V6,
}

/// A network: an IP version, an address, unmasked, and the length of its prefix in bits. Contracts see a `Network`.
///
/// Networks are ordered by version (IPv4 before IPv6), then by address, then by prefix.
#[derive(Clone, Copy)]
pub struct IpNet {
    version: Version,
    address: u128,
    prefix: u8,
}

impl Model for IpNet {
    ghost use Rattle.extensions.specs.Network.{Network, IsNetwork};
    ghost use Rattle.extensions.specs.Order.{network_code};

    ghost Value = { Network };

    ghost coded = { network_code };

    ghost view = { λ n. record { version = n.version; address = n.address; prefix = n.prefix } };

    ghost invariant = { λ n. IsNetwork (record { version = n.version; address = n.address; prefix = n.prefix }) };

    ghost inverse = { λ n. record { version = n.version; address = n.address; prefix = n.prefix } };
}

// 127.0.0.0/8.
const LOOPBACK_V4: IpNet = IpNet {
    version: Version::V4,
    address: 0x7f00_0000,
    prefix: 8,
};

// ::1/128.
const LOOPBACK_V6: IpNet = IpNet {
    version: Version::V6,
    address: 1,
    prefix: 128,
};

// 224.0.0.0/4.
const MULTICAST_V4: IpNet = IpNet {
    version: Version::V4,
    address: 0xe000_0000,
    prefix: 4,
};

// ff00::/8.
const MULTICAST_V6: IpNet = IpNet {
    version: Version::V6,
    address: 0xff00_0000_0000_0000_0000_0000_0000_0000,
    prefix: 8,
};

impl Version {
    ghost use Rattle.extensions.specs.Network.{width};
    ghost use Rattle.extensions.specs.Order.{version_number};

    /// Returns the number of the version, 4 or 6.
    fn number(self) -> u8
        ensures { result ≡ version_number self }
    {
        match self {
            Version::V4 => 4,
            Version::V6 => 6,
        }
    }

    /// Returns the number of bits of an address of this version.
    fn width(self) -> u8
        ensures { result ≡ width self }
    {
        match self {
            Version::V4 => 32,
            Version::V6 => 128,
        }
    }
}

impl PartialEq for IpNet {
    ghost use Rattle.std.specs.Ordering.{is_eq};
    ghost use Rattle.std.specs.Cmp.{partial_equiv_from_equiv};
    ghost use Rattle.std.proofs.lemmas.Cmp.{eq_by_cmp_equiv};
    ghost use Rattle.extensions.specs.Order.{network_cmp, network_cmp_total};

    ghost eq = { λ m n. is_eq (network_cmp m n) };

    ghost laws = { partial_equiv_from_equiv (eq_by_cmp_equiv network_cmp_total) };

    fn eq(&self, other: &IpNet) -> bool {
        self.cmp(other).is_eq()
    }
}

impl Eq for IpNet {
    ghost use Rattle.std.proofs.lemmas.Cmp.{eq_by_cmp_equiv};
    ghost use Rattle.extensions.specs.Order.{network_cmp_total};

    ghost laws = { eq_by_cmp_equiv network_cmp_total };
}

impl PartialOrd for IpNet {
    ghost use Rattle.std.specs.Prelude.{Some, refl};
    ghost use Rattle.std.specs.Cmp.{partial_order_from_agreeing_total};
    ghost use Rattle.extensions.specs.Order.{network_cmp, network_cmp_total};

    ghost partial_cmp = { λ m n. Some (network_cmp m n) };

    ghost laws = { partial_order_from_agreeing_total network_cmp network_cmp_total (λ m n. refl) (λ m n. refl) };

    fn partial_cmp(&self, other: &IpNet) -> Option<Ordering> {
        Some(self.cmp(other))
    }
}

impl Ord for IpNet {
    ghost use Rattle.std.specs.Prelude.{refl};
    ghost use Rattle.extensions.specs.Order.{network_cmp, network_cmp_total};

    ghost cmp = { network_cmp };

    ghost total = { network_cmp_total };

    ghost matches_partial_cmp = { λ m n. refl };

    ghost matches_eq = { λ m n. refl };

    fn cmp(&self, other: &IpNet) -> Ordering {
        self.version
            .number()
            .cmp(&other.version.number())
            .then(self.address.cmp(&other.address))
            .then(self.prefix.cmp(&other.prefix))
    }
}

impl IpNet {
    ghost use Rattle.extensions.specs.Network.{Network, IsNetwork, width, size, least, greatest, IsWithin, loopback_v4};
    ghost use Rattle.extensions.specs.Network.{loopback_v6, multicast_v4, multicast_v6};
    ghost use Rattle.extensions.specs.NetworkText.{IsNetworkText, network_text};
    ghost use Rattle.extensions.specs.declared.ip_net.Version.TheVariants.{V4, V6};

    /// Parses a network: an address, alone or followed by `/` and a prefix. An address alone has the longest prefix,
    /// 32 or 128. Returns `None` for any other string.
    pub fn parse(text: &str) -> Option<IpNet>
        ensures some { IfSome result (IsNetworkText text.now) }
        ensures none { IsNone result → (n : Network) → ¬ (IsNetworkText text.now n) }
    {
        match text.split_once('/') {
            Some((address, prefix)) => {
                let (version, address) = address_of_text(address)?;
                let prefix = prefix_of_text(prefix, version.width())?;
                Some(IpNet {
                    version,
                    address,
                    prefix,
                })
            }
            None => {
                let (version, address) = address_of_text(text)?;
                Some(IpNet {
                    version,
                    address,
                    prefix: version.width(),
                })
            }
        }
    }

    /// Returns whether the address of this network is an IPv4 address.
    pub fn is_ipv4(&self) -> bool
        ensures { IsTrue result ↔ (self.now.version ≡ V4) }
    {
        self.version == Version::V4
    }

    /// Returns whether the address of this network is an IPv6 address.
    pub fn is_ipv6(&self) -> bool
        ensures { IsTrue result ↔ (self.now.version ≡ V6) }
    {
        self.version == Version::V6
    }

    /// Returns whether the two networks have the same version and this one's range is within the other's.
    pub fn is_in_range(&self, other: &IpNet) -> bool
        ensures { IsTrue result ↔ IsWithin self.now other.now }
    {
        self.version == other.version
            && other.least() <= self.least()
            && self.greatest() <= other.greatest()
    }

    /// Returns whether the whole range of this network is in 127.0.0.0/8 or in ::1/128.
    pub fn is_loopback(&self) -> bool
        ensures { IsTrue result ↔ (IsWithin self.now loopback_v4 ⊎ IsWithin self.now loopback_v6) }
    {
        self.is_in_range(&LOOPBACK_V4) || self.is_in_range(&LOOPBACK_V6)
    }

    /// Returns whether the whole range of this network is in 224.0.0.0/4 or in ff00::/8.
    pub fn is_multicast(&self) -> bool
        ensures { IsTrue result ↔ (IsWithin self.now multicast_v4 ⊎ IsWithin self.now multicast_v6) }
    {
        self.is_in_range(&MULTICAST_V4) || self.is_in_range(&MULTICAST_V6)
    }

    /// Appends the canonical string: always with the prefix, and IPv6 as eight groups in lower case without leading
    /// zeros. The string parses as this network.
    ///
    /// # Errors
    ///
    /// - `NoMemory`: `out` has no capacity left for the longest canonical string, and an allocation failed. Nothing is
    ///   appended.
    pub fn write_to(&self, out: &mut String) -> Result<(), NoMemory>
        ensures written { OnOk result (string_bytes out.new ≡ string_bytes out.old ++ network_text self.now) }
        ensures unchanged { OnErr result (string_bytes out.new ≡ string_bytes out.old) }
        ensures refused { OnErr result (string_capacity out.old < string_len out.old + 43) }
        ensures reads_back { IsNetworkText (network_text self.now) self.now }
    {
        let (address, prefix) = (self.address, self.prefix);
        out.reserve(MOST)?;
        match self.version {
            Version::V4 => append_ipv4(address, out),
            Version::V6 => append_ipv6(address, out),
        }
        append(out, "/");
        append_decimal_byte(out, prefix);
        Ok(())
    }

    /// Returns the number of addresses in the range, minus one.
    fn others(&self) -> u128
        ensures { result + 1 ≡ size self.now }
    {
        let free = self.version.width() - self.prefix;
        if free == 128 {
            u128::MAX
        } else {
            (1 << free) - 1
        }
    }

    /// Returns the least address of the range.
    fn least(&self) -> u128
        ensures value { result ≡ least self.now }
        ensures within { result + size self.now ≤ 2 ^ 128 }
    {
        self.address - (self.address & self.others())
    }

    /// Returns the greatest address of the range.
    fn greatest(&self) -> u128
        ensures { result ≡ greatest self.now }
    {
        self.least() + self.others()
    }
}

/// Proves that the range of a network has exactly the addresses that agree with its address in the bits of its prefix.
/// No-op.
pub fn range_is_agreement()
    ensures { (n : Network) (x : ℕ) → ((least n ≤ x) × (x ≤ greatest n)) ↔ (x / size n ≡ n.address / size n) }
{}

/// Proves that the canonical string of a network parses as that network. No-op.
pub fn canonical_network_reads_back()
    ensures { (n : Network) → IsNetwork n → IsNetworkText (network_text n) n }
{}

/// Proves that a string denotes at most one network. No-op.
pub fn network_is_unique()
    ensures { (text : List ℕ) (m n : Network) → IsNetworkText text m → IsNetworkText text n → m ≡ n }
{}

/// Proves that `network_of` gives a network for a string if and only if the string denotes that network. Proves also
/// that `within_decided a b` is a proof if and only if the range of `a` is within that of `b`. No-op.
pub fn network_texts_are_decided()
    ensures texts { (text : List ℕ) (n : Network) → (network_of text ≡ Some n) ↔ IsNetworkText text n }
    ensures ranges { (a b : Network) → IsTrue (is_proved (within_decided a b)) ↔ IsWithin a b }
{}

/// Proves that the order of networks is total, and that only equal networks compare as equal. No-op.
pub fn network_order_is_exact()
    ensures total { IsTotalOrder network_cmp }
    ensures exact { (m n : Network) → network_cmp m n ≡ Equal → m ≡ n }
{}
