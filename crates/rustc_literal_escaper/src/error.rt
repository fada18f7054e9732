//! The errors and warnings of a literal.
ghost use Rattle.std.specs.Prelude.{◌≡◌, Some};
ghost use Rattle.rustc_literal_escaper.specs.Meaning as spec;
ghost use Rattle.rustc_literal_escaper.specs.Numbers.{error_message};

use std::error::Error;
use std::fmt;

/// An error or warning in a literal. Its `Display` writes a message.
///
/// # Examples
///
/// ```
/// use rustc_literal_escaper::EscapeError;
///
/// let error = EscapeError::LoneSlash;
/// assert!(error.is_fatal() && !EscapeError::UnskippedWhitespaceWarning.is_fatal());
/// assert_eq!(error.to_string(), "incomplete escape: missing character after the backslash");
/// ```
#[derive(Clone, Copy, Debug, PartialEq, Eq)]
pub enum EscapeError {
    /// An empty character or byte literal: `''`.
    ZeroChars,
    /// A character or byte literal with more than one unit: `'ab'`.
    MoreThanOneChar,

    /// A backslash at the end of the literal.
    LoneSlash,
    /// A backslash before a character that is not an escape: `\q`.
    InvalidEscape,
    /// A carriage return that is not escaped as `\r`.
    BareCarriageReturn,
    /// A carriage return in a raw string.
    BareCarriageReturnInRawString,
    /// A character that must be escaped in this literal: a tab between single quotes.
    EscapeOnlyChar,

    /// The literal ends before the two digits of `\x`: `\x1`.
    TooShortHexEscape,
    /// An invalid hexadecimal digit after `\x`: `\xz`.
    InvalidCharInHexEscape,
    /// `\x80` or more in a character literal or a string.
    OutOfRangeHexEscape,

    /// `\u` without an opening brace.
    NoBraceInUnicodeEscape,
    /// A character between the braces that is neither a hexadecimal digit nor an underscore.
    InvalidCharInUnicodeEscape,
    /// Nothing between the braces: `\u{}`.
    EmptyUnicodeEscape,
    /// The literal ends before the closing brace: `\u{12`.
    UnclosedUnicodeEscape,
    /// An underscore before the digits: `\u{_12}`.
    LeadingUnderscoreUnicodeEscape,
    /// More than six digits: `\u{10FFFF_FF}`.
    OverlongUnicodeEscape,
    /// A surrogate, which is not a character: `\u{DFFF}`.
    LoneSurrogateUnicodeEscape,
    /// A number greater than the maximum code point: `\u{FFFFFF}`.
    OutOfRangeUnicodeEscape,

    /// `\u` in a byte literal or a byte string.
    UnicodeEscapeInByte,
    /// A non-ASCII character in a byte literal, a byte string or a raw byte string.
    NonAsciiCharInByte,

    /// U+0000 or the byte 0 in a C string, which it would end.
    NulInCStr,

    /// A warning: whitespace that is not skipped follows a skipped line ending.
    UnskippedWhitespaceWarning,

    /// A warning: a backslash at the end of a line skips more than that line ending.
    MultipleSkippedLinesWarning,
}

impl EscapeError {
    /// Returns whether this is an error. The two warnings are not.
    pub fn is_fatal(&self) -> bool
        ensures { result ≡ spec.is_fatal self.now }
    {
        !matches!(
            self,
            EscapeError::MultipleSkippedLinesWarning | EscapeError::UnskippedWhitespaceWarning
        )
    }
}

impl fmt::Display for EscapeError {
    ghost output = { λ error. Some (error_message error) };

    fn fmt<W: fmt::Write>(&self, f: &mut fmt::Formatter<W>) -> fmt::Result {
        f.write_str(message_of(*self))
    }
}

impl Error for EscapeError {}

/// Returns the message of an error.
fn message_of(error: EscapeError) -> &'static str
    ensures { result.now ≡ error_message error }
{
    match error {
        EscapeError::ZeroChars => "empty literal: expected one character",
        EscapeError::MoreThanOneChar => "too many characters: expected one between single quotes",
        EscapeError::LoneSlash => "incomplete escape: missing character after the backslash",
        EscapeError::InvalidEscape => "unknown escape: write a backslash as `\\\\`",
        EscapeError::BareCarriageReturn => "bare CR in a literal: write it as `\\r`",
        EscapeError::BareCarriageReturnInRawString => "bare CR in a raw string",
        EscapeError::EscapeOnlyChar => "unescaped character: write it as an escape",
        EscapeError::TooShortHexEscape => "incomplete escape: `\\x` needs two hexadecimal digits",
        EscapeError::InvalidCharInHexEscape =>
            "invalid character in an escape: `\\x` needs two hexadecimal digits",
        EscapeError::OutOfRangeHexEscape => "escape out of range: the maximum is `\\x7f`",
        EscapeError::NoBraceInUnicodeEscape => "invalid escape: expected `{` after `\\u`",
        EscapeError::InvalidCharInUnicodeEscape =>
            "invalid character in an escape: expected a hexadecimal digit, `_` or `}`",
        EscapeError::EmptyUnicodeEscape =>
            "empty escape: `\\u` needs one to six hexadecimal digits",
        EscapeError::UnclosedUnicodeEscape => "incomplete escape: missing `}`",
        EscapeError::LeadingUnderscoreUnicodeEscape =>
            "leading `_` in an escape: expected a hexadecimal digit",
        EscapeError::OverlongUnicodeEscape =>
            "too many digits in an escape: `\\u` allows at most six",
        EscapeError::LoneSurrogateUnicodeEscape =>
            "invalid code point: surrogates are not characters",
        EscapeError::OutOfRangeUnicodeEscape => "escape out of range: the maximum is `\\u{10ffff}`",
        EscapeError::UnicodeEscapeInByte => "`\\u` in a byte or byte string: use `\\x`",
        EscapeError::NonAsciiCharInByte => "non-ASCII character in a byte or byte string",
        EscapeError::NulInCStr => "NUL in a C string: it would end the string",
        EscapeError::UnskippedWhitespaceWarning =>
            "unskipped whitespace: an escaped newline skips only spaces, tabs and line endings",
        EscapeError::MultipleSkippedLinesWarning =>
            "skipped blank line: an escaped newline skips it too",
    }
}
