//! Where in the input an error is, or after how many updates it came.
ghost use Rattle.std.specs.Prelude.{◌≡◌};
ghost use Rattle.answer_lines.specs.Refusals.{number_of};

/// The place of an error: an offset or an index, counted from 0, or a count.
#[derive(Clone, Copy, PartialEq, Eq, Debug)]
pub enum Place {
    /// The offset of a byte in the text of a policy or of a file of policies.
    Byte(usize),
    /// The index of a policy or entity in its file, of an entry or stamp in its message, or of a line in its script.
    Index(usize),
    /// How many updates of a message were applied before memory ran out.
    Taken(usize),
}

impl Place {
    /// Returns the number of the place, as the line of an error has it.
    pub fn number(self) -> usize
        ensures { result ≡ number_of self }
    {
        match self {
            Place::Byte(number) | Place::Index(number) | Place::Taken(number) => number,
        }
    }
}
