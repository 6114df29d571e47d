//! Functions that test whether a byte may be in a word or a number of the policy language, and that count such bytes at
//! the beginning of a text.
ghost use Rattle.std.specs.Prelude.{◌≡◌, ◌≤◌, length};
ghost use Rattle.plain.specs.Words.{is_letter, is_digit, is_word_byte, run};

/// Returns whether a byte is `_` or an ASCII letter.
#[tactic(auto, unfolding(crate::specs::Words::is_letter))]
pub fn letter(byte: u8) -> bool
    ensures { result ≡ is_letter byte }
{
    matches!(byte, b'_' | b'a'..=b'z' | b'A'..=b'Z')
}

/// Returns whether a byte is an ASCII digit.
#[tactic(auto, unfolding(crate::specs::Words::is_digit))]
pub fn digit(byte: u8) -> bool
    ensures { result ≡ is_digit byte }
{
    matches!(byte, b'0'..=b'9')
}

// At the index of each byte that a word may contain, that byte; at every other index, a colon.
static WORD_BYTES: [u8; 256] = *b"\
    ::::::::::::::::::::::::::::::::\
    ::::::::::::::::0123456789::::::\
    :ABCDEFGHIJKLMNOPQRSTUVWXYZ::::_\
    :abcdefghijklmnopqrstuvwxyz:::::\
    ::::::::::::::::::::::::::::::::\
    ::::::::::::::::::::::::::::::::\
    ::::::::::::::::::::::::::::::::\
    ::::::::::::::::::::::::::::::::";

/// Returns whether a word may contain this byte. The test is one look-up in a table, because it runs for most bytes of
/// a policy's text.
fn word_byte(byte: u8) -> bool
    ensures { result ≡ is_word_byte byte }
{
    WORD_BYTES[byte as usize] != b':'
}

/// Returns the number of bytes at the beginning of `text` that a word may contain. The first of them may be a digit.
pub fn word_len(text: &[u8]) -> usize
    ensures is { result ≡ run is_word_byte text.now }
    ensures within { result ≤ length text.now }
{
    let mut len = 0;
    for byte in text {
        if !word_byte(*byte) {
            return len;
        }
        len += 1;
    }
    len
}

/// Returns the number of ASCII digits at the beginning of `text`.
pub fn digits_len(text: &[u8]) -> usize
    ensures is { result ≡ run is_digit text.now }
    ensures within { result ≤ length text.now }
{
    let mut len = 0;
    for byte in text {
        if !digit(*byte) {
            return len;
        }
        len += 1;
    }
    len
}
