//! Entries of the store: a stamp, and a text or a tombstone.
ghost use Rattle.std.specs.Prelude.{Some, refl};
ghost use Rattle.std.specs.Ordering.{is_eq};
ghost use Rattle.std.specs.Cmp.{partial_equiv_from_equiv, partial_order_from_agreeing_total};
ghost use Rattle.std.proofs.lemmas.Cmp.{eq_by_cmp_equiv};
ghost use Rattle.stamped_store.specs.EntryOrder.{entry_at_most, greater, read_cmp};
ghost use Rattle.stamped_store.specs.EntryJoins.{greater_is_join, read_cmp_total};

use crate::{Join, SiteName};
use plain::Text;
use std::cmp::Ordering;

/// When and where an entry was issued: a Lamport timestamp. Stamps are ordered by count, then by the bytes of the
/// site's name.
#[derive(Clone, Copy, PartialEq, Eq, PartialOrd, Ord)]
pub struct Stamp {
    /// The count. Any count is allowed here; a message with a count outside 1 to 10^18 is rejected when it is parsed.
    pub count: u64,
    /// The name of the site.
    pub site: SiteName,
}

/// A text with its parsed form. The order and the equality of entries ignore the parsed form.
#[derive(Drop)]
pub struct ReadText<P> {
    /// The text itself.
    pub text: Text,
    /// Its parsed form.
    pub read: P,
}

/// An entry of the store: a stamp, and a body, which is a text or a tombstone.
#[derive(Drop)]
pub struct Entry<P> {
    /// When and where the entry was issued.
    pub stamp: Stamp,
    /// `None` is a tombstone: the name is deleted.
    pub body: Option<ReadText<P>>,
}

/// Entries are equal if their stamps and bodies are.
impl<P> PartialEq for Entry<P> {
    ghost eq = { λ a b. is_eq (read_cmp a b) };

    ghost laws = { partial_equiv_from_equiv (eq_by_cmp_equiv read_cmp_total) };

    fn eq(&self, other: &Entry<P>) -> bool {
        self.cmp(other).is_eq()
    }
}

impl<P> Eq for Entry<P> {
    ghost laws = { eq_by_cmp_equiv read_cmp_total };
}

impl<P> PartialOrd for Entry<P> {
    ghost partial_cmp = { λ a b. Some (read_cmp a b) };

    ghost laws = { partial_order_from_agreeing_total read_cmp read_cmp_total (λ a b. refl) (λ a b. refl) };

    fn partial_cmp(&self, other: &Entry<P>) -> Option<Ordering> {
        Some(self.cmp(other))
    }
}

/// Orders entries by count, then by the bytes of the site's name, then by body: a tombstone is the least body, and
/// texts are ordered by their bytes. Does not allocate.
impl<P> Ord for Entry<P> {
    ghost cmp = { read_cmp };

    ghost total = { read_cmp_total };

    ghost matches_partial_cmp = { λ a b. refl };

    ghost matches_eq = { λ a b. refl };

    fn cmp(&self, other: &Entry<P>) -> Ordering {
        match self.stamp.cmp(&other.stamp) {
            Ordering::Less => Ordering::Less,
            Ordering::Greater => Ordering::Greater,
            Ordering::Equal => match (&self.body, &other.body) {
                (None, None) => Ordering::Equal,
                (None, Some(_)) => Ordering::Less,
                (Some(_), None) => Ordering::Greater,
                (Some(a), Some(b)) => a.text.cmp(&b.text),
            },
        }
    }
}

/// The join of two entries is the greater.
impl<P: Drop> Join for Entry<P> {
    ghost is_below = { entry_at_most };

    ghost joined = { greater };

    ghost laws = { greater_is_join };

    // Inlined, so that no entry is moved for a call.
    #[inline(always)]
    fn below(&self, other: &Entry<P>) -> bool {
        self.cmp(other).is_le()
    }

    // The greater entry is kept; of two equal ones, this one.
    #[inline(always)]
    fn join(&mut self, other: Entry<P>) {
        if !other.below(self) {
            *self = other;
        }
    }
}
