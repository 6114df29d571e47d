//! A theorem about the numbers of tokens. The function is a no-op.
ghost use Rattle.std.specs.Prelude.{ℕ};
ghost use Rattle.grammar_syntax.specs.Grammar.{path, uid};
ghost use Rattle.grammar_parsing.specs.Expressions.{expr};
ghost use Rattle.fault_places.specs.TokenCounts.{path_count, uid_count, tree_count};
ghost use Rattle.fault_places.specs.Counted.{IsCounted};

/// Proves that the counts of names and of expressions, however deep they nest, are the numbers of the tokens that
/// derive them. No-op.
pub fn trees_count_their_tokens()
    ensures paths { IsCounted path path_count }
    ensures uids { IsCounted uid uid_count }
    ensures expressions { (levels : ℕ) → IsCounted (expr levels) tree_count }
{}
