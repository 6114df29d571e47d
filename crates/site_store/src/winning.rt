//! A test of whether a stored entry stays when another is joined onto it.
ghost use Rattle.std.specs.Prelude.{◌↔◌, IsTrue};
ghost use Rattle.std.specs.Option.{option_copied};
ghost use Rattle.site_store.specs.Winning.{StoredWins};

use stamped_store::Entry;

/// Returns whether a stored entry stays when another is joined onto it; false if none is stored.
pub fn stored_wins<P>(held: Option<&Entry<P>>, entry: &Entry<P>) -> bool
    ensures { IsTrue result ↔ StoredWins (option_copied held.entry) entry.now }
{
    match held {
        Some(held) => entry.cmp(held).is_le(),
        None => false,
    }
}
