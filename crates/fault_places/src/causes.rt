//! The cause of a typing error that a report names: the attribute that is undeclared or may be missing (error 44).
ghost use Rattle.std.specs.Prelude.{◌≡◌};
ghost use Rattle.fault_places.specs.Words.{typing_cause};

use grammar_core::Expr;
use validator::TypeFault;

/// Returns the cause of a typing error: for error 44 the name of the attribute that the form accesses, else nothing.
pub(crate) fn typing_cause(fault: TypeFault, form: &Expr) -> &str
    ensures { result.now ≡ typing_cause fault form.now }
{
    match fault {
        TypeFault::AttributeMayBeMissing => match form {
            Expr::Field(_, name) => name.as_str(),
            _ => "",
        },
        _ => "",
    }
}
