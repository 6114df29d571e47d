//! Splits bytes into lines.
ghost use Rattle.std.specs.Prelude.{◌≡◌, ◌<◌, ◌∷◌, length};
ghost use Rattle.program_drills.specs.Lines.{lines};

/// Returns the first line of bytes, which are not empty, and the bytes after its line feed (`[]` without a line feed).
pub(crate) fn first_line(bytes: &[u8]) -> (&[u8], &[u8])
    requires { 0 < length bytes.now }
    ensures lines { lines bytes.now ≡ result.0.now ∷ lines result.1.now }
    ensures less { length result.1.now < length bytes.now }
{
    for at in 0..bytes.len() {
        if bytes[at] == b'\n' {
            return (&bytes[..at], &bytes[at + 1..]);
        }
    }
    (bytes, &bytes[bytes.len()..])
}
