//! The elements of a literal.
ghost use Rattle.std.specs.Prelude.{◌≡◌};
ghost use Rattle.rustc_literal_escaper.specs.Meaning.{byte_of, char_of, error_of, raw_unit_of, scalar_of, unit_of};

use crate::error::EscapeError;
use crate::mode::Mode;
use crate::unit::{MixedUnit, NonZeroChar};

/// An element of a literal, as it is written in the source.
///
/// Strings, byte strings and C strings have the same elements, but the value of an element depends on the kind of the
/// literal.
#[derive(Clone, Copy, Debug, PartialEq, Eq)]
pub enum Element {
    /// An unescaped character.
    Plain(char),
    /// A byte, written as a short escape like `\n`, or with two digits like `\x41`.
    Byte(u8),
    /// A number of at most six digits, like `\u{1F600}`. It need not be a valid code point.
    Unicode(u32),
    /// An error in every kind of literal, or a warning.
    Diagnostic(EscapeError),
}

impl Element {
    /// Returns the value of the element in a character literal, a string or a raw string.
    #[inline]
    pub fn to_char(self) -> Result<char, EscapeError>
        ensures { result ≡ char_of self }
    {
        match self {
            Element::Plain(c) => Ok(c),
            Element::Byte(byte) if byte < 128 => Ok(byte as char),
            Element::Byte(_) => Err(EscapeError::OutOfRangeHexEscape),
            Element::Unicode(number) => scalar(number),
            Element::Diagnostic(error) => Err(error),
        }
    }

    /// Returns the value of the element in a byte literal, a byte string or a raw byte string.
    #[inline]
    pub fn to_byte(self) -> Result<u8, EscapeError>
        ensures { result ≡ byte_of self }
    {
        match self {
            Element::Plain(c) if c.is_ascii() => Ok(c as u8),
            Element::Plain(_) => Err(EscapeError::NonAsciiCharInByte),
            Element::Byte(byte) => Ok(byte),
            Element::Unicode(_) => Err(EscapeError::UnicodeEscapeInByte),
            Element::Diagnostic(error) => Err(error),
        }
    }

    /// Returns the value of the element in a C string: a character or a byte.
    #[inline]
    pub fn to_mixed_unit(self) -> Result<MixedUnit, EscapeError>
        ensures { result ≡ unit_of self }
    {
        match self {
            Element::Plain(c) => MixedUnit::try_from(c),
            Element::Byte(byte) => MixedUnit::try_from(byte),
            Element::Unicode(number) => MixedUnit::try_from(scalar(number)?),
            Element::Diagnostic(error) => Err(error),
        }
    }

    /// Returns the value of the element in a raw C string.
    #[inline]
    pub fn to_raw_unit(self) -> Result<NonZeroChar, EscapeError>
        ensures { result ≡ raw_unit_of self }
    {
        NonZeroChar::new(self.to_char()?).ok_or(EscapeError::NulInCStr)
    }

    /// Returns the error or warning of the element in a literal of this kind, or `None` if it has none.
    #[inline(always)]
    pub fn error_in(self, mode: Mode) -> Option<EscapeError>
        ensures { result ≡ error_of mode self }
    {
        match mode {
            Mode::Char | Mode::Str | Mode::RawStr => self.to_char().err(),
            Mode::Byte | Mode::ByteStr | Mode::RawByteStr => self.to_byte().err(),
            Mode::CStr => self.to_mixed_unit().err(),
            Mode::RawCStr => self.to_raw_unit().err(),
        }
    }
}

/// Returns the character with this code point.
///
/// It is not inlined, so that the call passes only the number. When it is inlined, `rustc` compares the whole element,
/// including the padding below the number. That does not change the result, but valgrind warns about it.
#[inline(never)]
fn scalar(number: u32) -> Result<char, EscapeError>
    ensures { result ≡ scalar_of number }
{
    if number > 0x10_FFFF {
        return Err(EscapeError::OutOfRangeUnicodeEscape);
    }
    char::from_u32(number).ok_or(EscapeError::LoneSurrogateUnicodeEscape)
}
