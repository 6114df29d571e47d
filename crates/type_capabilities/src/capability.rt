//! Capabilities and their order.
ghost use Rattle.std.specs.Prelude.{◌≡◌, ◌↔◌, IsTrue, Some, refl};
ghost use Rattle.std.specs.Ordering.{is_eq};
ghost use Rattle.std.specs.Cmp.{partial_equiv_from_equiv, partial_order_from_agreeing_total};
ghost use Rattle.std.proofs.lemmas.Cmp.{eq_by_cmp_equiv};
ghost use Rattle.type_capabilities.specs.CapabilityList.{capability_of, borrowed_cmp, borrowed_cmp-IsTotalOrder};

use crate::compared::compare;
use grammar_core::Expr;
use std::cmp::Ordering;

/// A capability: an expression and the name of a field, both borrowed.
///
/// Capabilities are equal if their names and expressions are, and are ordered by names and then by expressions.
#[derive(Clone, Copy)]
pub struct Capability<'a> {
    /// The expression.
    pub whole: &'a Expr,
    /// The name of the field.
    pub name: &'a str,
}

/// Returns whether two capabilities are equal.
pub(crate) fn is_same(one: &Capability<'_>, other: &Capability<'_>) -> bool
    ensures { IsTrue result ↔ (capability_of one.now ≡ capability_of other.now) }
{
    one.cmp(other).is_eq()
}

impl<'a> PartialEq for Capability<'a> {
    ghost eq = { λ p q. is_eq (borrowed_cmp p q) };

    ghost laws = { partial_equiv_from_equiv (eq_by_cmp_equiv borrowed_cmp-IsTotalOrder) };

    fn eq(&self, other: &Capability<'a>) -> bool {
        self.cmp(other).is_eq()
    }
}

impl<'a> Eq for Capability<'a> {
    ghost laws = { eq_by_cmp_equiv borrowed_cmp-IsTotalOrder };
}

impl<'a> PartialOrd for Capability<'a> {
    ghost partial_cmp = { λ p q. Some (borrowed_cmp p q) };

    ghost laws = { partial_order_from_agreeing_total borrowed_cmp borrowed_cmp-IsTotalOrder (λ p q. refl)
        (λ p q. refl) };

    fn partial_cmp(&self, other: &Capability<'a>) -> Option<Ordering> {
        Some(self.cmp(other))
    }
}

impl<'a> Ord for Capability<'a> {
    ghost cmp = { borrowed_cmp };

    ghost total = { borrowed_cmp-IsTotalOrder };

    ghost matches_partial_cmp = { λ p q. refl };

    ghost matches_eq = { λ p q. refl };

    fn cmp(&self, other: &Capability<'a>) -> Ordering {
        match self.name.cmp(other.name) {
            Ordering::Equal => compare(self.whole, other.whole),
            Ordering::Less => Ordering::Less,
            Ordering::Greater => Ordering::Greater,
        }
    }
}
