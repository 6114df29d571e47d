//! Copies of bytes, kept in a list.
ghost use Rattle.std.specs.Prelude.{◌≡◌, ◌∷◌, ◌++◌, [], OnOk, OnErr};
ghost use Rattle.test_journal.specs.Texts.{texts};

use std::alloc::{AllocError, Global};

/// Appends a copy of some bytes to a list; if an allocation fails, the list is unchanged.
pub fn push_copy(alloc: Global, list: &mut Vec<Vec<u8>>, bytes: &[u8]) -> Result<(), AllocError>
    ensures ok { OnOk result (texts list.new.items ≡ texts list.old.items ++ bytes.now ∷ []) }
    ensures err { OnErr result (list.new.items ≡ list.old.items) }
{
    let copy = Vec::from_slice(alloc, bytes)?;
    match list.push(copy) {
        Ok(()) => Ok(()),
        Err(_) => Err(AllocError),
    }
}
