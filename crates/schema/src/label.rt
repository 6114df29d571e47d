//! The label of a schema.
ghost use Rattle.std.specs.Prelude.{◌≡◌, IfOk};
ghost use Rattle.sha2.specs.Sha256.{sha256};
ghost use Rattle.hex.specs.Hex.{encode_lower};

use plain::{NoMemory, Text};
use sha2::{Digest, Sha256};
use std::alloc::Global;

/// Returns SHA-256 of the bytes, as 64 lower case hexadecimal digits. The only error is `NoMemory`.
///
/// Source: FIPS 180-4.
pub fn label_of(alloc: Global, bytes: &[u8]) -> Result<Text, NoMemory>
    ensures { IfOk result (λ t. t ≡ encode_lower (sha256 bytes.now)) }
{
    let digest = Sha256::digest(bytes);
    let digits = hex::encode(alloc, digest.as_slice())?;
    Ok(Text::from_string(digits))
}
