//! The pointer of a slot, the memory in which C keeps a site.
ghost use Rattle.std.specs.Prelude.{◌≡◌, Option, Some, None, is_some, true};
ghost use Rattle.weirbowl.specs.declared.embedded.EmbeddedSite.{EmbeddedSite};
ghost use Rattle.weirbowl.specs.Ownership.{site_at, site_coded};

use crate::embedded::EmbeddedSite;
use crate::raw_box::RawBox;
use std::alloc::Global;
use std::marker::Model;

/// A pointer that owns a site, or nothing.
#[repr(C)]
#[derive(Drop)]
pub struct SitePointer {
    address: *mut u8,
    pub ghost site: { Option EmbeddedSite } by { site_coded },
}

impl Model for SitePointer {
    ghost also_owns = { λ p. site_at p.address p.site };
}

impl SitePointer {
    /// Takes the site, which the pointer must own, and leaves a pointer that owns nothing. Does not allocate.
    pub(crate) fn take(&mut self, alloc: Global) -> Box<EmbeddedSite>
        requires { is_some self.old.site ≡ true }
        ensures { (self.old.site ≡ Some result.value) × (self.new.site ≡ None) }
    {
        let address = self.address;
        unsafe { Box::from_raw(alloc, address as *mut EmbeddedSite) }
    }

    /// Creates a pointer that owns the site that `raw` owned. Does not allocate.
    pub(crate) fn to(raw: RawBox<EmbeddedSite>) -> SitePointer
        ensures { result.site ≡ Some raw.value }
    {
        let RawBox { address } = raw;
        SitePointer {
            address: address as *mut u8,
        }
    }
}
