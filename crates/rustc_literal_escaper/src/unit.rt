//! The units of C strings.
ghost use Rattle.std.specs.Prelude.{◌≡◌, ◌<◌};
ghost use Rattle.std.specs.Option.{SomeIff};

use crate::error::EscapeError;
use std::marker::Model;

/// A character other than U+0000.
#[derive(Clone, Copy, Debug, PartialEq, Eq)]
pub struct NonZeroChar {
    value: char,
}

impl Model for NonZeroChar {
    ghost use Rattle.std.specs.Prelude.{ℕ, ◌<◌};

    ghost Value = { ℕ };

    ghost view = { λ c. c.value };

    ghost invariant = { λ c. 0 < c.value };

    ghost inverse = { λ n. record { value = n } };
}

impl NonZeroChar {
    /// Returns the character, or `None` if it is U+0000.
    #[inline]
    pub fn new(value: char) -> Option<NonZeroChar>
        ensures { SomeIff result (0 < value) value }
    {
        if value == '\0' {
            None
        } else {
            Some(NonZeroChar { value })
        }
    }

    /// Returns the character as a `char`.
    #[inline]
    pub fn get(self) -> char
        ensures value { result ≡ self }
        ensures nonzero { 0 < result }
    {
        self.value
    }

    /// Returns `value` as a `NonZeroChar`, without a test.
    #[inline(always)]
    pub(crate) fn of_nonzero(value: char) -> NonZeroChar
        requires nonzero { 0 < value }
        ensures { result ≡ value }
    {
        NonZeroChar { value }
    }
}

/// A byte other than 0.
#[derive(Clone, Copy, Debug, PartialEq, Eq)]
pub struct NonZeroU8 {
    value: u8,
}

impl Model for NonZeroU8 {
    ghost use Rattle.std.specs.Prelude.{ℕ, ◌<◌};

    ghost Value = { ℕ };

    ghost view = { λ b. b.value };

    ghost invariant = { λ b. 0 < b.value };

    ghost inverse = { λ n. record { value = n } };
}

impl NonZeroU8 {
    /// Returns the byte, or `None` if it is 0.
    #[inline]
    pub fn new(value: u8) -> Option<NonZeroU8>
        ensures { SomeIff result (0 < value) value }
    {
        if value == 0 {
            None
        } else {
            Some(NonZeroU8 { value })
        }
    }

    /// Returns the byte as a `u8`.
    #[inline]
    pub fn get(self) -> u8
        ensures value { result ≡ self }
        ensures nonzero { 0 < result }
    {
        self.value
    }
}

/// A unit of a C string: a character, or a byte that is not part of a character.
#[derive(Clone, Copy, Debug, PartialEq, Eq)]
pub enum MixedUnit {
    /// A character, written unescaped, as `\u{..}`, or as an escape for a byte below 128.
    ///
    /// In the C string, it is encoded as UTF-8: `¥` has two bytes.
    Char(NonZeroChar),
    /// A byte of 128 or more, written as `\x80` to `\xff`.
    HighByte(NonZeroU8),
}

impl From<NonZeroChar> for MixedUnit {
    ghost use Rattle.rustc_literal_escaper.specs.declared.unit.MixedUnit.TheVariants.{Char};

    ghost from_gives = { λ c r. r ≡ Char c };

    #[inline]
    fn from(c: NonZeroChar) -> MixedUnit {
        MixedUnit::Char(c)
    }
}

impl From<NonZeroU8> for MixedUnit {
    ghost use Rattle.rustc_literal_escaper.specs.Meaning.{unit_of_byte};

    ghost from_gives = { λ b r. r ≡ unit_of_byte b };

    #[inline]
    fn from(byte: NonZeroU8) -> MixedUnit {
        if byte.get() < 128 {
            MixedUnit::Char(NonZeroChar::of_nonzero(byte.get() as char))
        } else {
            MixedUnit::HighByte(byte)
        }
    }
}

impl TryFrom<char> for MixedUnit {
    ghost use Rattle.rustc_literal_escaper.specs.Meaning.{unit_or_nul};
    ghost use Rattle.rustc_literal_escaper.specs.declared.unit.MixedUnit.TheVariants.{Char};

    type Error = EscapeError;

    ghost try_from_gives = { λ c r. r ≡ unit_or_nul c (Char c) };

    #[inline]
    fn try_from(c: char) -> Result<MixedUnit, EscapeError> {
        match NonZeroChar::new(c) {
            Some(c) => Ok(MixedUnit::Char(c)),
            None => Err(EscapeError::NulInCStr),
        }
    }
}

impl TryFrom<u8> for MixedUnit {
    ghost use Rattle.rustc_literal_escaper.specs.Meaning.{unit_of_byte, unit_or_nul};

    type Error = EscapeError;

    ghost try_from_gives = { λ b r. r ≡ unit_or_nul b (unit_of_byte b) };

    #[inline]
    fn try_from(byte: u8) -> Result<MixedUnit, EscapeError> {
        match NonZeroU8::new(byte) {
            Some(byte) => Ok(MixedUnit::from(byte)),
            None => Err(EscapeError::NulInCStr),
        }
    }
}
