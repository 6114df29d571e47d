//! Bytes copied to memory of the caller.
ghost use Rattle.std.specs.Prelude.{◌≡◌};
ghost use Rattle.weirbowl.specs.Copies.{copied};

/// Copies bytes to the beginning of `memory`, if it is long enough for them. The rest of `memory` is unchanged.
pub fn copy_out(bytes: &[u8], memory: &mut [u8])
    ensures { memory.new ≡ copied bytes.now memory.old }
{
    if bytes.len() <= memory.len() {
        memory[..bytes.len()].copy_from_slice(bytes);
    }
}
