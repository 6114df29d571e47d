//! The measure and the core expression of a whole tree.
ghost use Rattle.std.specs.Prelude.{◌≡◌, [], IfOk};
ghost use Rattle.grammar_syntax.specs.WellFormed.{WellFormedExpr, WellFormedPath};
ghost use Rattle.grammar_desugaring.specs.BuiltFrom.{IsBuiltFrom};
ghost use Rattle.grammar_desugaring.specs.Meaning.{path_name};
ghost use Rattle.grammar_desugaring.specs.Core.{core_of};
ghost use Rattle.grammar_desugaring.specs.Faults.{faults_of};
ghost use Rattle.grammar_desugaring.specs.TreeMeasures.{measured};

use crate::build::build_tree;
use crate::measure::Measure;
use crate::measuring::measure_tree;
use crate::words::path_type;
use grammar_core::Expr;
use grammar_syntax::{ExprTree, PathTree};
use plain::NoMemory;
use std::alloc::Global;
use values::TypeName;

/// Returns the measure of a tree: the size of its core expression, which is not built, and its error at the least
/// offset, if it has one.
///
/// Allocates only for the keys of records. Takes time proportional to the length of the tree's text, except that n keys
/// of a record take O(n log n) comparisons. The only error is `NoMemory`.
pub fn measure_expr(alloc: Global, text: &str, tree: &ExprTree) -> Result<Measure, NoMemory>
    requires { IsBuiltFrom text.now (λ tokens. WellFormedExpr tokens tree.now) }
    ensures { IfOk result (λ measure. measure ≡ measured text.now tree.now) }
{
    measure_tree(alloc, text, tree)
}

/// Returns the core expression of a tree without errors. The only error is `NoMemory`.
///
/// Source: Cedar reference guide 4.0, "Grammar specification for Cedar policy syntax" and "Operators and functions".
pub fn build_expr(alloc: Global, text: &str, tree: &ExprTree) -> Result<Expr, NoMemory>
    requires is_well_formed { IsBuiltFrom text.now (λ tokens. WellFormedExpr tokens tree.now) }
    requires sound { faults_of text.now tree.now ≡ [] }
    ensures { IfOk result (λ expr. expr ≡ core_of text.now tree.now) }
{
    build_tree(alloc, text, tree)
}

/// Returns the type name that a Path denotes. The only error is `NoMemory`.
pub fn type_name(alloc: Global, text: &str, path: &PathTree) -> Result<TypeName, NoMemory>
    requires { IsBuiltFrom text.now (λ tokens. WellFormedPath tokens path.now) }
    ensures { IfOk result (λ name. name ≡ path_name text.now path.now) }
{
    path_type(alloc, text, path)
}
