//! Decimals with four decimal places.
ghost use Rattle.std.specs.Prelude.{◌≡◌, ℕ, ℤ, pos, ◌<◌, ◌≤◌, ◌<ℤ◌, ◌≤ℤ◌, ◌↔◌, IsTrue, IsNone, IfSome, SomeIff, ◌^◌};
ghost use Rattle.std.specs.Prelude.{◌*◌, ◌-◌, ◌+◌, length, FitsSigned, neg_ℤ, OnOk, OnErr, string_bytes, string_len};
ghost use Rattle.std.specs.Prelude.{string_capacity, ◌++◌, List, Some, refl};
ghost use Rattle.std.specs.Int.{w64};
ghost use Rattle.std.specs.Ordering.{is_eq, int_cmp};
ghost use Rattle.std.specs.Cmp.{partial_equiv_from_equiv, partial_order_from_agreeing_total, int_cmp_total};
ghost use Rattle.std.proofs.lemmas.Cmp.{eq_by_cmp_equiv};
ghost use Rattle.std.specs.Str.Parse.{IsNumeral, digits_value};
ghost use Rattle.extensions.specs.DecimalText.{IsDecimalText, IsUnsignedText, decimal_text, magnitude_text};
ghost use Rattle.extensions.specs.TextsDecided.{decimal_of};

use crate::pieces::{append, append_digit, append_whole};
use plain::NoMemory;
use std::cmp::Ordering;
use std::marker::Model;

/// The number of bytes of the longest canonical string, `-922337203685477.5808`.
const MOST: usize = 21;

/// A decimal with four places: a signed 64-bit number of ten-thousandths. Contracts see this number; decimals are
/// compared and ordered by it.
#[derive(Clone, Copy)]
pub struct Decimal {
    ten_thousandths: i64,
}

impl Model for Decimal {
    ghost use Rattle.std.specs.Prelude.{ℤ, FitsSigned};
    ghost use Rattle.std.specs.Int.{w64};

    ghost Value = { ℤ };

    ghost view = { λ d. d.ten_thousandths };

    ghost invariant = { λ d. FitsSigned w64 d.ten_thousandths };

    ghost inverse = { λ n. record { ten_thousandths = n } };
}

impl Decimal {
    /// Parses a decimal: an optional `-`, one or more digits, `.` and one to four digits. Returns `None` for any other
    /// string, and if the ten-thousandths do not fit in signed 64 bits.
    pub fn parse(text: &str) -> Option<Decimal>
        ensures some { IfSome result (IsDecimalText text.now) }
        ensures none { IsNone result → (n : ℤ) → ¬ (IsDecimalText text.now n) }
    {
        let ten_thousandths = match text.strip_prefix('-') {
            Some(unsigned) => negated(magnitude_of_text(unsigned)?)?,
            None => non_negative(magnitude_of_text(text)?)?,
        };
        Some(Decimal { ten_thousandths })
    }

    /// Returns whether this number is less than the other.
    pub fn less_than(&self, other: &Decimal) -> bool
        ensures { IsTrue result ↔ (self.now <ℤ other.now) }
    {
        self.ten_thousandths < other.ten_thousandths
    }

    /// Returns whether this number is at most the other.
    pub fn less_or_equal(&self, other: &Decimal) -> bool
        ensures { IsTrue result ↔ (self.now ≤ℤ other.now) }
    {
        self.ten_thousandths <= other.ten_thousandths
    }

    /// Appends the canonical string: four digits after the point, no unnecessary leading zeros, and no `-` on zero. The
    /// string parses as this number.
    ///
    /// # Errors
    ///
    /// - `NoMemory`: `out` has no capacity left for the longest canonical string, and an allocation failed. Nothing is
    ///   appended.
    pub fn write_to(&self, out: &mut String) -> Result<(), NoMemory>
        ensures written { OnOk result (string_bytes out.new ≡ string_bytes out.old ++ decimal_text self.now) }
        ensures unchanged { OnErr result (string_bytes out.new ≡ string_bytes out.old) }
        ensures refused { OnErr result (string_capacity out.old < string_len out.old + 21) }
        ensures reads_back { IsDecimalText (decimal_text self.now) self.now }
    {
        let ten_thousandths = self.ten_thousandths;
        out.reserve(MOST)?;
        if ten_thousandths < 0 {
            append(out, "-");
        }
        append_magnitude(ten_thousandths.unsigned_abs(), out);
        Ok(())
    }
}

impl PartialEq for Decimal {
    ghost eq = { λ a b. is_eq (int_cmp a b) };

    ghost laws = { partial_equiv_from_equiv (eq_by_cmp_equiv int_cmp_total) };

    fn eq(&self, other: &Decimal) -> bool {
        self.ten_thousandths == other.ten_thousandths
    }
}

impl Eq for Decimal {
    ghost laws = { eq_by_cmp_equiv int_cmp_total };
}

impl PartialOrd for Decimal {
    ghost partial_cmp = { λ a b. Some (int_cmp a b) };

    ghost laws = { partial_order_from_agreeing_total int_cmp int_cmp_total (λ a b. refl) (λ a b. refl) };

    fn partial_cmp(&self, other: &Decimal) -> Option<Ordering> {
        Some(self.cmp(other))
    }
}

impl Ord for Decimal {
    ghost cmp = { int_cmp };

    ghost total = { int_cmp_total };

    ghost matches_partial_cmp = { λ a b. refl };

    ghost matches_eq = { λ a b. refl };

    fn cmp(&self, other: &Decimal) -> Ordering {
        self.ten_thousandths.cmp(&other.ten_thousandths)
    }
}

/// Appends `magnitude` ten-thousandths as a decimal without a sign: the whole part, a point and four digits, in at most
/// 20 bytes. `magnitude` must be at most `2^63`, and `out` must have capacity for 20 more bytes.
fn append_magnitude(magnitude: u64, out: &mut String)
    requires small { magnitude ≤ 2 ^ 63 }
    requires room { string_len out.old + 20 ≤ string_capacity out.old }
    ensures { string_bytes out.new ≡ string_bytes out.old ++ magnitude_text magnitude }
{
    append_whole(out, magnitude / 10_000);
    append(out, ".");
    append_digit(out, (magnitude / 1_000 % 10) as u32);
    append_digit(out, (magnitude / 100 % 10) as u32);
    append_digit(out, (magnitude / 10 % 10) as u32);
    append_digit(out, (magnitude % 10) as u32)
}

/// Returns the number of ten-thousandths of a decimal without a sign; `None` for any other string, and for `2^64`
/// ten-thousandths or more.
fn magnitude_of_text(text: &str) -> Option<u64>
    ensures some { IfSome result (IsUnsignedText text.now) }
    ensures none { IsNone result → (n : ℕ) → IsUnsignedText text.now n → 2 ^ 64 ≤ n }
{
    let (whole, fraction) = text.split_once('.')?;
    let whole = number(whole)?;
    let fraction = ten_thousandths(fraction)?;
    joined(whole, fraction)
}

/// Returns the number of ten-thousandths in `whole` units and `fraction` ten-thousandths, or `None` if it is `2^64` or
/// more.
fn joined(whole: u64, fraction: u64) -> Option<u64>
    ensures { SomeIff result (whole * 10000 + fraction < 2 ^ 64) (whole * 10000 + fraction) }
{
    u64::try_from(u128::from(whole) * 10_000 + u128::from(fraction)).ok()
}

/// Returns `-magnitude`, or `None` if it is outside signed 64 bits.
fn negated(magnitude: u64) -> Option<i64>
    ensures { SomeIff result (FitsSigned w64 (neg_ℤ (pos magnitude))) (neg_ℤ (pos magnitude)) }
{
    i64::try_from(-i128::from(magnitude)).ok()
}

/// Returns `magnitude`, or `None` if it is outside signed 64 bits.
fn non_negative(magnitude: u64) -> Option<i64>
    ensures { SomeIff result (FitsSigned w64 (pos magnitude)) (pos magnitude) }
{
    i64::try_from(magnitude).ok()
}

/// Returns the number of ten-thousandths that one to four digits after the point denote; `None` for any other string.
fn ten_thousandths(fraction: &str) -> Option<u64>
    ensures { SomeIff result (IsNumeral 10 fraction.now × (length fraction.now ≤ 4))
        (digits_value 10 fraction.now * 10 ^ (4 - length fraction.now)) }
{
    let places = fraction.len();
    if places > 4 {
        return None;
    }
    Some(number(fraction)? * scale(places))
}

/// Returns `10^(4 - places)`: the number of ten-thousandths in `10^-places`.
fn scale(places: usize) -> u64
    requires { places ≤ 4 }
    ensures { result ≡ 10 ^ (4 - places) }
{
    match places {
        0 => 10_000,
        1 => 1_000,
        2 => 100,
        3 => 10,
        _ => 1,
    }
}

/// Returns the number that a string of one or more digits denotes; `None` for any other string, and for a number of
/// `2^64` or more.
fn number(text: &str) -> Option<u64>
    ensures { SomeIff result (IsNumeral 10 text.now × (digits_value 10 text.now < 2 ^ 64)) (digits_value 10 text.now) }
{
    if text.starts_with('+') {
        return None;
    }
    text.parse::<u64>().ok()
}

/// Proves that a string denotes at most one decimal. No-op.
pub fn decimal_is_unique()
    ensures { (text : List ℕ) (y z : ℤ) → IsDecimalText text y → IsDecimalText text z → y ≡ z }
{}

/// Proves that `decimal_of` gives the ten-thousandths of a string if and only if the string is a decimal. No-op.
pub fn decimal_texts_are_decided()
    ensures { (text : List ℕ) (z : ℤ) → (decimal_of text ≡ Some z) ↔ IsDecimalText text z }
{}

/// Proves that the canonical string of a decimal parses as that decimal. No-op.
pub fn canonical_decimal_reads_back()
    ensures { (z : ℤ) → FitsSigned w64 z → IsDecimalText (decimal_text z) z }
{}
