//! Functions that append a piece of text to a string whose capacity has room for it. They do not allocate, so they do
//! not fail.
ghost use Rattle.std.specs.Prelude.{◌≡◌, ◌+◌, ◌/◌, ◌%◌, ◌^◌, ◌<◌, ◌≤◌, ◌++◌, ◌∷◌, [], false, length, string_bytes};
ghost use Rattle.std.specs.Prelude.{string_len, string_capacity};
ghost use Rattle.std.specs.Fmt.{decimal, digits, digit_glyph};
ghost use Rattle.extensions.specs.inner.Places.{place_text};

use itoa::Buffer;

/// Appends a piece of text.
pub(crate) fn append(out: &mut String, piece: &str)
    requires { string_len out.old + length piece.now ≤ string_capacity out.old }
    ensures bytes { string_bytes out.new ≡ string_bytes out.old ++ piece.now }
    ensures len { string_len out.new ≡ string_len out.old + length piece.now }
    ensures capacity { string_capacity out.old ≤ string_capacity out.new }
{
    out.push_str(piece).unwrap()
}

/// Appends a number below 256 in decimal.
pub(crate) fn append_decimal_byte(out: &mut String, n: u8)
    requires { string_len out.old + 3 ≤ string_capacity out.old }
    ensures bytes { string_bytes out.new ≡ string_bytes out.old ++ decimal n }
    ensures len { string_len out.new ≤ string_len out.old + 3 }
    ensures capacity { string_capacity out.old ≤ string_capacity out.new }
{
    let mut buffer = Buffer::new();
    append(out, buffer.format(n))
}

/// Appends the whole part of a decimal, in decimal. It has at most 15 digits, since a decimal is a signed 64-bit number
/// of ten-thousandths.
pub(crate) fn append_whole(out: &mut String, n: u64)
    requires small { n < 10 ^ 15 }
    requires room { string_len out.old + 15 ≤ string_capacity out.old }
    ensures bytes { string_bytes out.new ≡ string_bytes out.old ++ decimal n }
    ensures len { string_len out.new ≤ string_len out.old + 15 }
    ensures capacity { string_capacity out.old ≤ string_capacity out.new }
{
    let mut buffer = Buffer::new();
    append(out, buffer.format(n))
}

/// Appends a hexadecimal digit, in lower case.
pub(crate) fn append_digit(out: &mut String, digit: u32)
    requires small { digit < 16 }
    requires room { string_len out.old < string_capacity out.old }
    ensures bytes { string_bytes out.new ≡ string_bytes out.old ++ digit_glyph false digit ∷ [] }
    ensures len { string_len out.new ≡ string_len out.old + 1 }
    ensures capacity { string_capacity out.old ≤ string_capacity out.new }
{
    let digit = char::from_digit(digit, 16).unwrap();
    out.push(digit).unwrap()
}

/// Appends the hexadecimal digit of `group` at the place value `place`, a power of 16. If `group` is less than `place`,
/// the digit would be a leading zero, and nothing is appended.
fn append_place(out: &mut String, group: u32, place: u32)
    requires room { string_len out.old < string_capacity out.old }
    requires some { 0 < place }
    ensures bytes { string_bytes out.new ≡ string_bytes out.old ++ place_text place group }
    ensures len { string_len out.new ≤ string_len out.old + 1 }
    ensures capacity { string_capacity out.old ≤ string_capacity out.new }
{
    if place <= group {
        append_digit(out, group / place % 16);
    }
}

/// Appends a group of sixteen bits in hexadecimal, without leading zeros.
pub(crate) fn append_group(out: &mut String, group: u32)
    requires small { group < 2 ^ 16 }
    requires room { string_len out.old + 4 ≤ string_capacity out.old }
    ensures bytes { string_bytes out.new ≡ string_bytes out.old ++ digits 16 false group }
    ensures len { string_len out.new ≤ string_len out.old + 4 }
    ensures capacity { string_capacity out.old ≤ string_capacity out.new }
{
    append_place(out, group, 0x1000);
    append_place(out, group, 0x100);
    append_place(out, group, 0x10);
    append_digit(out, group % 16)
}
