//! Measures of trees: the size of a core expression and the error of its tree, computed before the expression is built.
ghost use Rattle.std.specs.Prelude.{◌≡◌};
ghost use Rattle.grammar_desugaring.specs.Sums as spec;

use crate::fault::{DesugarFault, earlier_of};

/// The size of the core expression of a tree, and the error of the tree at the least offset. Sizes saturate at
/// `u32::MAX`.
#[derive(Clone, Copy)]
pub struct Measure {
    /// The height; 1 for a leaf.
    pub height: u32,
    /// The number of nodes.
    pub node_count: u32,
    /// The error at the least offset; `None` if the tree has no error.
    pub fault: Option<DesugarFault>,
}

impl Measure {
    /// Returns the measure of an empty list of expressions: height 0, no nodes and no error.
    pub(crate) fn nothing() -> Measure
        ensures { result ≡ spec.nothing }
    {
        Measure {
            height: 0,
            node_count: 0,
            fault: None,
        }
    }

    /// Returns the measure of an expression without operands, with the error `fault`, if there is one.
    pub(crate) fn leaf(fault: Option<DesugarFault>) -> Measure
        ensures { result ≡ spec.leaf fault }
    {
        Measure {
            height: 1,
            node_count: 1,
            fault,
        }
    }

    /// Returns the measure of a node over one operand.
    pub fn node_measure(self) -> Measure
        ensures { result ≡ spec.node_measure self }
    {
        Measure {
            height: self.height.saturating_add(1),
            node_count: self.node_count.saturating_add(1),
            fault: self.fault,
        }
    }

    /// Returns the measure of two expressions side by side: the greater height, the sum of the numbers of nodes, and
    /// the error that [`earlier_of`] returns.
    pub(crate) fn side_by_side(self, other: Measure) -> Measure
        ensures { result ≡ spec.side_by_side self other }
    {
        Measure {
            height: self.height.max(other.height),
            node_count: self.node_count.saturating_add(other.node_count),
            fault: earlier_of(self.fault, other.fault),
        }
    }

    /// Returns the measure of a node over two operands. Of two errors at one offset, the measure has that of the first
    /// operand.
    pub fn paired(self, other: Measure) -> Measure
        ensures { result ≡ spec.paired self other }
    {
        self.side_by_side(other).node_measure()
    }

    /// Returns the measure of a call. `fault` is the call's own error, and `self` is the measure of the operands, with
    /// the earliest of `fault` and the operands' errors. A call with an error of its own has a placeholder, a leaf, as
    /// its core expression.
    pub(crate) fn called(self, fault: Option<DesugarFault>) -> Measure
        ensures { result ≡ spec.called fault self }
    {
        match fault {
            None => self.node_measure(),
            Some(_) => Measure::leaf(self.fault),
        }
    }

    /// Returns the measure with the earlier of `fault` and its own error; with `fault` if their offsets are equal.
    pub(crate) fn with_fault(self, fault: Option<DesugarFault>) -> Measure
        ensures { result ≡ spec.with_fault fault self }
    {
        Measure {
            height: self.height,
            node_count: self.node_count,
            fault: earlier_of(fault, self.fault),
        }
    }
}
