//! Theorems about the grammar of expressions. The function is a no-op.
ghost use Rattle.grammar_parsing.specs.Expressions.{expr, any_expr, nesting_limit};
ghost use Rattle.grammar_syntax.specs.ParseResults.{HasOneTree, HasOneAnswerWithin, OpensNextLevel};

/// Proves that each list of tokens, parsed as an expression, has exactly one result (a tree or an error), and derives
/// at most one tree without the limit on nesting. Proves also that the token at the index of a `TooDeep` opens the
/// first level past the limit. No-op.
pub fn expression_is_unique()
    ensures one_tree { HasOneTree (expr nesting_limit) }
    ensures one_tree_at_any_depth { HasOneTree any_expr }
    ensures one_answer { HasOneAnswerWithin (expr nesting_limit) any_expr }
    ensures too_deep { OpensNextLevel expr nesting_limit }
{}
