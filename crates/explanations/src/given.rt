//! The texts that are explained.

/// A text, and the name of its file.
#[derive(Clone, Copy)]
pub struct NamedText<'n, 't> {
    /// The name of the file, as it is shown.
    pub name: &'n str,
    /// The content of the file.
    pub text: &'t [u8],
}

/// The texts that are checked.
#[derive(Clone, Copy)]
pub struct Given<'n, 't> {
    /// A schema, if there is one.
    pub schema: Option<NamedText<'n, 't>>,
    /// The policies.
    pub policies: NamedText<'n, 't>,
    /// The entities, if there are any.
    pub entities: Option<NamedText<'n, 't>>,
    /// The request, if there is one.
    pub request: Option<NamedText<'n, 't>>,
}
