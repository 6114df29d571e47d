//! The first step of a path at a core node with one or two operands.
ghost use Rattle.std.specs.Prelude.{◌≡◌};
ghost use Rattle.fault_places.specs.Places as spec;

/// The first step of a path at a core node with one or two operands.
#[derive(Clone, Copy)]
pub(crate) enum Turn<'p> {
    /// The path ends.
    Stop,
    /// The path leads to the first operand, or into it.
    Left(&'p [usize]),
    /// The path leads to the second operand, or into it.
    Right(&'p [usize]),
    /// The path leads to an operand that does not exist.
    Off,
}

/// Returns the first turn of a path.
pub(crate) fn first_turn(path: &[usize]) -> Turn<'_>
    ensures { spec.abstract_turn result ≡ spec.turn path.now }
{
    match path {
        [] => Turn::Stop,
        [index, rest @ ..] => {
            if *index == 0 {
                return Turn::Left(rest);
            }
            if *index == 1 {
                return Turn::Right(rest);
            }
            Turn::Off
        }
    }
}
