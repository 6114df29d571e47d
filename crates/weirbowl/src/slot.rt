//! The memory in which C keeps a site.
ghost use Rattle.std.specs.Prelude.{◌≡◌, is_some};

use crate::pointer::SitePointer;

/// A slot for a site. Zeroed memory is a slot in which no site is open.
#[repr(C)]
#[derive(Drop)]
pub struct SiteSlot {
    /// Whether a site is open.
    pub is_open: bool,
    /// The pointer, which owns the site if one is open.
    pub pointer: SitePointer,
    pub ghost is_consistent: { is_open ≡ is_some pointer.site },
}
