//! Tests whether a site stamped any update of a store.
ghost use Rattle.std.specs.Prelude.{◌≡◌};
ghost use Rattle.std.specs.List.{list_any};
ghost use Rattle.std.specs.Str.{bytes_eq};
ghost use Rattle.stamped_store.specs.Store.{abstract_store};
ghost use Rattle.stamped_store.specs.Stamping.{has_stamps_of};

use crate::{Entry, SiteName, Stamp, StampedStore};
use std::collections::btree_map::Iter;

/// Returns whether a stamp is one of the site with this name.
fn is_stamped_at(stamp: &Stamp, site: SiteName) -> bool
    ensures { result ≡ bytes_eq stamp.now.site site }
{
    stamp.site.as_str() == site.as_str()
}

/// Returns whether any of these entries has a stamp of the site with this name.
fn is_any_stamped_at<K, P>(entries: Iter<'_, K, Entry<P>>, site: SiteName) -> bool
    ensures { result ≡ list_any (λ e. bytes_eq e.1.stamp.site site) entries.entry }
{
    let mut found = false;
    for (_, entry) in entries {
        found |= is_stamped_at(&entry.stamp, site);
    }
    found
}

impl<P: Drop, E: Drop> StampedStore<P, E> {
    /// Returns whether some update of the store, even a tombstone, has a stamp of the site with this name. O(n) for n
    /// updates. Does not allocate.
    pub fn has_stamps_of(&self, site: SiteName) -> bool
        ensures { result ≡ has_stamps_of site (abstract_store self.now) }
    {
        let of_policies = is_any_stamped_at(self.policies(), site);
        let of_entities = is_any_stamped_at(self.entities(), site);
        of_policies | of_entities
    }
}
