//! The end of a quoted literal or of a block comment.

/// The end of a quoted literal or of a block comment.
#[derive(Clone, Copy)]
pub(crate) struct BodyEnd<'a> {
    /// Whether the closing delimiter is present.
    pub(crate) terminated: bool,
    /// The text after the closing delimiter, or after the unterminated token.
    pub(crate) rest: &'a str,
}
