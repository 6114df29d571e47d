//! The numbers that digits denote, with and without a minus before them.
ghost use Rattle.std.specs.Prelude.{◌≡◌, ◌<◌, ◌≤◌, ◌^◌, ◌+◌, ◌*◌, ◌-◌, MatchOption};
ghost use Rattle.grammar_desugaring.specs.Numbers.{written, fits, fits_negated, positive, negative};

/// Returns `number` with one more decimal digit, given as an ASCII byte, if the result fits in unsigned 64 bits.
fn with_digit(number: u64, digit: u8) -> Option<u64>
    ensures { MatchOption result (2 ^ 64 ≤ 10 * number + (digit - 48)) (λ n. n ≡ 10 * number + (digit - 48)) }
{
    let value = u64::from(digit.saturating_sub(b'0'));
    if number <= (u64::MAX - value) / 10 {
        Some(10 * number + value)
    } else {
        None
    }
}

/// Returns the number that these digits denote, if it fits in unsigned 64 bits.
fn amount(digits: &[u8]) -> Option<u64>
    ensures { MatchOption result (2 ^ 64 ≤ written digits.now) (λ n. n ≡ written digits.now) }
{
    let mut so_far: u64 = 0;
    for digit in digits {
        match with_digit(so_far, *digit) {
            Some(more) => so_far = more,
            None => return None,
        }
    }
    Some(so_far)
}

/// Returns whether the number that these digits denote fits in signed 64 bits.
pub(crate) fn fits(digits: &[u8]) -> bool
    ensures { result ≡ fits digits.now }
{
    match amount(digits) {
        Some(number) => number < 1 << 63,
        None => false,
    }
}

/// Returns whether the number that these digits denote after a minus fits in signed 64 bits.
pub(crate) fn fits_negated(digits: &[u8]) -> bool
    ensures { result ≡ fits_negated digits.now }
{
    match amount(digits) {
        Some(number) => number <= 1 << 63,
        None => false,
    }
}

/// Returns the number that these digits denote, or 0 if it is out of range.
pub(crate) fn positive(digits: &[u8]) -> i64
    ensures { result ≡ positive digits.now }
{
    match amount(digits) {
        Some(number) if number < 1 << 63 => number as i64,
        _ => 0,
    }
}

/// Returns the number that these digits denote after a minus, or 0 if it is out of range.
pub(crate) fn negative(digits: &[u8]) -> i64
    ensures { result ≡ negative digits.now }
{
    match amount(digits) {
        Some(number) if number < 1 << 63 => -(number as i64),
        Some(number) if number == 1 << 63 => i64::MIN,
        _ => 0,
    }
}
