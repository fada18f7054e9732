//! The kinds of character, byte and string literals.
ghost use Rattle.std.specs.Prelude.{◌≡◌, not};
ghost use Rattle.rustc_literal_escaper.specs.Meaning.{is_single, prefix_of};

/// The kind of a literal. It decides how the text between the quotes is read.
///
/// See [Literals](https://doc.rust-lang.org/reference/tokens.html#literals) in the Rust Reference.
///
/// # Examples
///
/// ```
/// use rustc_literal_escaper::Mode;
///
/// assert_eq!(Mode::RawByteStr.prefix_noraw(), "b");
/// assert!(Mode::CStr.in_double_quotes() && !Mode::Byte.in_double_quotes());
/// ```
#[derive(Clone, Copy, Debug, PartialEq, Eq)]
pub enum Mode {
    /// A character literal, like `'a'`.
    Char,
    /// A byte literal, like `b'a'`.
    Byte,
    /// A string, like `"hello"`.
    Str,
    /// A raw string, like `r"hello"`.
    RawStr,
    /// A byte string, like `b"hello"`.
    ByteStr,
    /// A raw byte string, like `br"hello"`.
    RawByteStr,
    /// A C string, like `c"hello"`.
    CStr,
    /// A raw C string, like `cr"hello"`.
    RawCStr,
}

impl Mode {
    /// Returns whether a literal of this kind has double quotes. Only character and byte literals do not.
    pub fn in_double_quotes(self) -> bool
        ensures { result ≡ not (is_single self) }
    {
        !matches!(self, Mode::Char | Mode::Byte)
    }

    /// Returns the prefix of a literal of this kind, without the `r` of a raw one: `""`, `"b"` or `"c"`.
    pub fn prefix_noraw(self) -> &'static str
        ensures { result.now ≡ prefix_of self }
    {
        match self {
            Mode::CStr | Mode::RawCStr => "c",
            Mode::RawByteStr | Mode::ByteStr | Mode::Byte => "b",
            Mode::RawStr | Mode::Str | Mode::Char => "",
        }
    }
}
