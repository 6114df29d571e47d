//! The line with which a site answers a merge.
ghost use Rattle.std.specs.Prelude.{◌≡◌, ◌↔◌, IsTrue};
ghost use Rattle.std.specs.Char.{is_ascii_digit};
ghost use Rattle.std.specs.List.{list_all};
ghost use Rattle.program_exchanges.specs.Counts.{IsTakenLine};

/// Returns whether all bytes are decimal digits.
fn are_digits(bytes: &[u8]) -> bool
    ensures { result ≡ list_all is_ascii_digit bytes.now }
{
    bytes.iter().all(|byte| byte.is_ascii_digit())
}

/// Returns whether a line is `{"taken":n}`, where n is one or more decimal digits: the line with which a site answers a
/// merge.
pub fn is_taken_line(line: &[u8]) -> bool
    ensures { IsTrue result ↔ IsTakenLine line.now }
{
    let Some(behind) = line.strip_prefix(b"{\"taken\":") else {
        return false;
    };
    let Some(digits) = behind.strip_suffix(b"}") else {
        return false;
    };
    if digits.is_empty() {
        return false;
    }
    are_digits(digits)
}
