//! Theorems about errors, strings, repeated names and measures. The functions are no-ops.
ghost use Rattle.grammar_desugaring.specs.ReportedErrors.{LeastIsLeast, NoneOfNone, LeastOfBoth};
ghost use Rattle.grammar_desugaring.specs.Repeats.{RepeatsAreExact, RepeatsAreReported};
ghost use Rattle.grammar_desugaring.specs.Strings.{ValueIsValue, PatternIsPattern};
ghost use Rattle.grammar_desugaring.specs.Sums.{LiteralIsLeaf, UnaryIsAbove, AndIsPaired};

/// Proves that `least` reports an error of a list at the least offset, and reports one unless the list is empty. Of two
/// lists together `least` reports the earlier of their reported errors. No-op.
pub fn least_fault_is_reported()
    ensures least { LeastIsLeast }
    ensures none { NoneOfNone }
    ensures both { LeastOfBoth }
{}

/// Proves that the computed value of a string, and its computed literal texts as a pattern, are those that the grammar
/// of strings defines. No-op.
pub fn strings_are_read()
    ensures values { ValueIsValue }
    ensures patterns { PatternIsPattern }
{}

/// Proves that `repeats` has exactly the offsets of names that also occur earlier, and that the reported error depends
/// only on the set of these offsets. No-op.
pub fn repeats_are_exact()
    ensures again { RepeatsAreExact }
    ensures told { RepeatsAreReported }
{}

/// Proves that a literal has the measure of a leaf, and that the measures of a unary operator and of `&&` follow from
/// those of their operands. No-op.
pub fn measures_add_up()
    ensures literal { LiteralIsLeaf }
    ensures unary { UnaryIsAbove }
    ensures and { AndIsPaired }
{}
