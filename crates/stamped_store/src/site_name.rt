//! Names of sites.
ghost use Rattle.std.specs.Prelude.{◌≡◌, ◌↔◌, ◌≤◌, ◌+◌, ◌%◌, IsTrue, MatchOption, Some, refl};
ghost use Rattle.std.specs.List.{list_all};
ghost use Rattle.std.specs.Ordering.{nat_cmp, is_eq};
ghost use Rattle.std.specs.Cmp.{partial_equiv_from_equiv, partial_order_from_agreeing_total};
ghost use Rattle.std.specs.Cmp.Lexicographic.{slice_cmp};
ghost use Rattle.std.proofs.lemmas.Cmp.{eq_by_cmp_equiv, nat_list_cmp_total};
ghost use Rattle.stamped_store.specs.SiteNames.{IsSiteName, is_site_byte, five_digits};
ghost use Rattle.stamped_store.specs.SiteNames.{is_site_name as is_named, padded, word_at};

use plain::words::{digit, letter};
use std::cmp::Ordering;
use std::marker::Model;

/// The greatest length of a site's name, in bytes.
const NAME_MAX: usize = 32;

/// The name of a site: 1 to 32 bytes, each an ASCII letter, a digit, `-`, `_` or `.`. Contracts see its bytes.
///
/// Names are equal if and only if their bytes are, and ordered by bytes: `1` and `00001` name two sites. A name is
/// `Copy` and does not allocate.
#[derive(Clone, Copy)]
pub struct SiteName {
    // The name, followed by zeros.
    bytes: [u8; NAME_MAX],
    // The number of bytes of the name.
    len: u8,
}

impl Model for SiteName {
    ghost use Rattle.std.specs.Prelude.{List, ℕ, take, length};
    ghost use Rattle.std.proofs.Common.{sym};

    ghost Value = { List ℕ };

    ghost use Rattle.stamped_store.specs.SiteNames.{KeepsName, padded};

    ghost view = { λ s. take s.len s.bytes };

    ghost invariant = { λ s. KeepsName s.bytes s.len };

    ghost inverse = { λ name. record { bytes = padded name; len = length name } };

    ghost inverse_ok = { λ s h i. record { bytes = sym h.whole i; len = h.counted i } };
}

// Returns whether a site's name may contain this byte.
fn is_name_byte(byte: u8) -> bool
    ensures { result ≡ is_site_byte byte }
{
    (letter(byte) || digit(byte)) || (byte == b'-' || byte == b'.')
}

// Returns whether a site's name may contain each of these bytes.
fn are_name_bytes(bytes: &[u8]) -> bool
    ensures { result ≡ list_all is_site_byte bytes.now }
{
    for byte in bytes {
        if !is_name_byte(*byte) {
            return false;
        }
    }
    true
}

// Returns whether these bytes are the name of a site.
#[tactic(auto, unfolding(crate::specs::SiteNames::is_site_name))]
fn is_name(bytes: &[u8]) -> bool
    ensures { result ≡ is_named bytes.now }
{
    1 <= bytes.len() && bytes.len() <= NAME_MAX && are_name_bytes(bytes)
}

/// Returns whether a string is the name of a site: 1 to 32 bytes, each an ASCII letter, a digit, `-`, `_` or `.`.
/// Does not allocate.
#[tactic(auto, using(crate::proofs::SiteNames::names_are_told))]
pub fn is_site_name(text: &str) -> bool
    ensures computed { result ≡ is_named text.now }
    ensures named { IsTrue result ↔ IsSiteName text.now }
{
    is_name(text.as_bytes())
}

impl SiteName {
    /// Creates the site name `name`, for which [`is_site_name`] must hold. Does not allocate.
    pub fn new(name: &str) -> SiteName
        requires { IsSiteName name.now }
        ensures { result ≡ name.now }
    {
        let mut bytes = [0; NAME_MAX];
        bytes[..name.len()].copy_from_slice(name.as_bytes());
        SiteName {
            bytes,
            len: name.len() as u8,
        }
    }

    /// Parses a name; returns `None` if the string is not the name of a site. Does not allocate.
    pub fn parse(text: &str) -> Option<SiteName>
        ensures { MatchOption result (IsSiteName text.now → ⊥) (λ n. IsSiteName text.now × (n ≡ text.now)) }
    {
        if is_site_name(text) {
            Some(SiteName::new(text))
        } else {
            None
        }
    }

    /// Returns the name of the site that has this number in messages of version 1: five digits, with leading zeros. The
    /// number 0, which no site has in such messages, gives `00000`. Does not allocate.
    pub fn from_number(number: u16) -> SiteName
        ensures { result ≡ five_digits number }
    {
        let mut bytes = [0; NAME_MAX];
        bytes[0] = last_digit(number / 10000);
        bytes[1] = last_digit(number / 1000);
        bytes[2] = last_digit(number / 100);
        bytes[3] = last_digit(number / 10);
        bytes[4] = last_digit(number);
        SiteName { bytes, len: 5 }
    }

    /// Returns the bytes of the name. Does not allocate.
    pub fn as_bytes(&self) -> &[u8]
        ensures bytes { result.now ≡ self.now }
        ensures named { IsSiteName self.now }
    {
        &self.bytes[..self.len as usize]
    }

    /// Returns the name as a string. Does not allocate.
    pub fn as_str(&self) -> &str
        ensures text { result.now ≡ self.now }
        ensures named { IsSiteName self.now }
    {
        match std::str::from_utf8(self.as_bytes()) {
            Ok(text) => text,
            // The bytes of a name are ASCII.
            Err(_) => unreachable!(),
        }
    }
}

// Names are compared by words of eight bytes: a name with its trailing zeros has four words. As big-endian numbers,
// words are ordered as their bytes are. No byte of a name is 0, so a name comes after each of its proper prefixes.
impl SiteName {
    // Returns the eight bytes at this offset, as a big-endian number.
    fn word(&self, at: usize) -> u64
        requires { at + 8 ≤ 32 }
        ensures spelt { result ≡ word_at at (padded self.now) }
        ensures named { IsSiteName self.now }
    {
        let bytes = &self.bytes;
        u64::from_be_bytes([
            bytes[at],
            bytes[at + 1],
            bytes[at + 2],
            bytes[at + 3],
            bytes[at + 4],
            bytes[at + 5],
            bytes[at + 6],
            bytes[at + 7],
        ])
    }

    // Compares the words of two names at this offset.
    fn word_cmp(&self, other: &SiteName, at: usize) -> Ordering
        requires { at + 8 ≤ 32 }
        ensures ordered { result ≡ nat_cmp (word_at at (padded self.now)) (word_at at (padded other.now)) }
        ensures named { IsSiteName self.now × IsSiteName other.now }
    {
        self.word(at).cmp(&other.word(at))
    }
}

// Returns the last digit of a number, in ASCII.
fn last_digit(number: u16) -> u8
    ensures { result ≡ 48 + number % 10 }
{
    b'0' + (number % 10) as u8
}

impl PartialEq for SiteName {
    ghost eq = { λ s t. is_eq (slice_cmp nat_cmp s t) };

    ghost laws = { partial_equiv_from_equiv (eq_by_cmp_equiv nat_list_cmp_total) };

    fn eq(&self, other: &SiteName) -> bool {
        self.cmp(other).is_eq()
    }
}

impl Eq for SiteName {
    ghost laws = { eq_by_cmp_equiv nat_list_cmp_total };
}

impl PartialOrd for SiteName {
    ghost partial_cmp = { λ s t. Some (slice_cmp nat_cmp s t) };

    ghost laws = { partial_order_from_agreeing_total (slice_cmp nat_cmp) nat_list_cmp_total (λ s t. refl)
        (λ s t. refl) };

    fn partial_cmp(&self, other: &SiteName) -> Option<Ordering> {
        Some(self.cmp(other))
    }
}

impl Ord for SiteName {
    ghost cmp = { slice_cmp nat_cmp };

    ghost total = { nat_list_cmp_total };

    ghost matches_partial_cmp = { λ s t. refl };

    ghost matches_eq = { λ s t. refl };

    // Not inlined: the counts of two stamps mostly differ, and then this is not called.
    #[inline(never)]
    fn cmp(&self, other: &SiteName) -> Ordering {
        let first = self.word_cmp(other, 0);
        if first.is_ne() {
            return first;
        }
        let second = self.word_cmp(other, 8);
        if second.is_ne() {
            return second;
        }
        let third = self.word_cmp(other, 16);
        if third.is_ne() {
            return third;
        }
        self.word_cmp(other, 24)
    }
}
