//! Theorems about the expression that a typing error blames. The functions are no-ops.
ghost use Rattle.typing.specs.PathLaws.{BlamesArePlaced, OneBlame};

use crate::laws::expressions_have_one_judgement;

/// Proves that an error blames one place: all of its derivations lead to the same path, form and types. No-op.
pub fn faults_blame_one_place()
    ensures { OneBlame }
{
    expressions_have_one_judgement();
}

/// Proves that an error blames a part of the expression. The path to this part leads from the whole expression to the
/// form whose demand is not met, or to an operand of that form. No-op.
pub fn blames_are_placed()
    ensures { BlamesArePlaced }
{}
