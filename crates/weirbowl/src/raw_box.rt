//! A pointer in place of a box.
ghost use Rattle.std.specs.Prelude.{◌≡◌};
ghost use Rattle.weirbowl.specs.Ownership.{owned_at};

use std::marker::Model;

/// A pointer that owns what a box owned: the value at its address, and the right to free that memory.
pub(crate) struct RawBox<T> {
    pub(crate) address: *mut T,
    pub(crate) ghost value: { T },
}

impl<T> Model for RawBox<T> {
    ghost also_owns = { λ b. owned_at T.row b.address b.value };
}

impl<T: Drop> RawBox<T> {
    /// Turns a box into the pointer that owns what the box owned. Does not allocate.
    pub(crate) fn from_box(boxed: Box<T>) -> RawBox<T>
        ensures { result.value ≡ boxed.value }
    {
        let address = Box::into_raw(boxed);
        RawBox { address }
    }
}
