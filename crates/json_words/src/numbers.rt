//! The number that the text of a JSON number denotes.
ghost use Rattle.std.specs.Prelude.{◌≡◌, ◌<◌, ◌==◌, length, slice_index, option_map, IsTrue, true, false};
ghost use Rattle.fast_float.specs.Text.{minus};
ghost use Rattle.serde_json.specs.Read.{number_of, number_from, float_of};
ghost use Rattle.serde_json.specs.View.{number_view};

use fast_float::Numeral;
use serde_json::Number;

/// Returns the number that the text of a JSON number denotes, or `None` if it is too large for a float.
///
/// A number from -2^63 to 2^64 - 1 that is written without a fraction or an exponent is an integer, except `-0`; `-0`
/// and every other number are floats.
pub(crate) fn number_in(text: &str) -> Option<Number>
    ensures { option_map number_view result ≡ number_of text.now }
{
    let bytes = text.as_bytes();
    if is_signed(bytes) {
        below_zero(&Numeral::scan(&bytes[1..]))
    } else {
        from_zero(&Numeral::scan(bytes))
    }
}

/// Returns whether the first byte is a minus.
fn is_signed(bytes: &[u8]) -> bool
    ensures value { result ≡ (slice_index bytes.now 0 == minus) }
    ensures some { IsTrue result → 0 < length bytes.now }
{
    match bytes.first() {
        Some(first) => *first == b'-',
        None => false,
    }
}

/// Returns the number that a numeral without a sign denotes, or `None` if it is too large for a float.
fn from_zero(digits: &Numeral<'_>) -> Option<Number>
    ensures { option_map number_view result ≡ number_from false digits.now }
{
    match digits.to_u64() {
        Some(n) => Some(Number::from(n)),
        None => nearest(digits, false),
    }
}

/// Returns the number that a numeral after a minus denotes, or `None` if its absolute value is too large for a float.
fn below_zero(digits: &Numeral<'_>) -> Option<Number>
    ensures { option_map number_view result ≡ number_from true digits.now }
{
    match digits.to_i64(true) {
        Some(n) if n < 0 => Some(Number::from(n)),
        _ => nearest(digits, true),
    }
}

/// Returns the float nearest to the number that a numeral denotes, after a minus if `negative` is true; `None` if that
/// float is not finite.
fn nearest(digits: &Numeral<'_>, negative: bool) -> Option<Number>
    ensures { option_map number_view result ≡ float_of negative digits.now }
{
    Number::from_f64(digits.to_float::<f64>(negative))
}
