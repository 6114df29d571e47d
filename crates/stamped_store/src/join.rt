//! Values that can be joined.
ghost use Rattle.std.specs.Prelude.{◌≡◌, Bool, true};
ghost use Rattle.stamped_store.specs.Joins.{IsJoin};

/// A value that can be joined. The join of two values is their least upper bound, where values that are at most each
/// other count as equal. Neither method may allocate.
pub trait Join {
    /// Whether a value is at most another.
    ghost is_below: { Self → Self → Bool };

    /// The result of a join.
    ghost joined: { Self → Self → Self };

    /// Returns whether this value is at most the other.
    fn below(&self, other: &Self) -> bool
        ensures { result ≡ is_below self.now other.now };

    /// Replaces this value by the join of both.
    fn join(&mut self, other: Self)
        ensures { self.new ≡ joined self.old other };

    /// `is_below` is a preorder, and the join is a least upper bound, and associative, commutative and idempotent.
    ghost laws: { IsJoin (λ a b. is_below a b ≡ true) joined };
}
