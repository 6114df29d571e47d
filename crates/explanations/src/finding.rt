//! Findings: errors with what is known of them. An explanation is made of a finding.

/// An error in a part of a text, such as in a policy of its file.
#[derive(Clone, Copy)]
pub(crate) struct SourceFinding<'t> {
    /// The error code (docs/codes.md).
    pub code: u16,
    /// The offset of the byte at which the part begins, counted from 0.
    pub start: usize,
    /// The offset of the byte after the part.
    pub end: usize,
    /// The cause, such as the token at `start`; empty if the explanation names none.
    pub cause: &'t str,
    /// What else is known, such as the environment that has the error; empty if nothing is.
    pub detail: &'t str,
    /// What the shown place is, if it is not the place of the error itself; else empty.
    pub note: &'t str,
}

/// An error that is explained without a line of its text, such as an entity's in its file.
#[derive(Clone, Copy)]
pub(crate) struct WholeFinding<'t> {
    /// The error code (docs/codes.md).
    pub code: u16,
    /// The index of the item at fault, counted from 0, if the text is an array and one item is at fault.
    pub index: Option<usize>,
    /// What is known of the place of the error in that item or in the text; empty if nothing is.
    pub detail: &'t str,
}
