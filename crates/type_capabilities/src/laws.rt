//! The theorem about the orders of expressions and of capabilities. The function is a no-op.
ghost use Rattle.std.specs.Cmp.{IsTotalOrder};
ghost use Rattle.std.specs.FinMap.{IsAntisymmetric};
ghost use Rattle.type_capabilities.specs.Order.{expr_cmp};
ghost use Rattle.type_capabilities.specs.CapabilityList.{capability_cmp};

/// Proves that the orders of expressions and of capabilities are total, and give `Equal` only for equal ones. No-op.
pub fn capabilities_are_ordered()
    ensures total { IsTotalOrder expr_cmp }
    ensures exact { IsAntisymmetric expr_cmp }
    ensures capabilities_total { IsTotalOrder capability_cmp }
    ensures capabilities_exact { IsAntisymmetric capability_cmp }
{}
