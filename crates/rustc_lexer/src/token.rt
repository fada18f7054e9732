//! Tokens: their kinds and lengths.
ghost use Rattle.std.specs.Prelude.{◌≡◌, Some};
ghost use Rattle.rustc_lexer.specs.Kinds.{closes_group, has_fields, is_trivia, kind_entry, literal_entry, opens_group};
ghost use Rattle.rustc_lexer.specs.Kinds.{raw_str_text};

use std::error::Error;
use std::fmt;

/// A token: its kind and its length.
#[derive(Clone, Copy, Debug, PartialEq, Eq)]
pub struct Token {
    /// The kind of the token.
    pub kind: TokenKind,
    /// The length in bytes.
    pub len: u32,
}

/// The kind of a token: whitespace, a comment, a frontmatter, a word, a literal, a lifetime or a symbol. A keyword is
/// an [`Ident`](TokenKind::Ident), like any other identifier.
///
/// ```
/// use rustc_lexer::TokenKind;
///
/// assert_eq!(TokenKind::Plus.name(), "Plus");
/// assert_eq!(TokenKind::Plus.number(), 37);
/// ```
///
/// Rust Reference: [tokens](https://doc.rust-lang.org/reference/tokens.html).
#[derive(Clone, Copy, Debug, PartialEq, Eq)]
pub enum TokenKind {
    /// A comment from `//` to the end of the line, such as `// note`.
    ///
    /// Rust Reference: [comments](https://doc.rust-lang.org/reference/comments.html).
    LineComment {
        /// The style of a doc comment, or `None` for any other comment.
        doc_style: Option<DocStyle>,
    },

    /// A comment from `/*` to the matching `*/`, such as `/* note */`. Block comments nest. An unterminated one extends
    /// to the end of the text.
    ///
    /// Rust Reference: [comments](https://doc.rust-lang.org/reference/comments.html).
    BlockComment {
        /// The style of a doc comment, or `None` for any other comment.
        doc_style: Option<DocStyle>,
        /// Whether the closing `*/` is present.
        terminated: bool,
    },

    /// A run of whitespace.
    ///
    /// Rust Reference: [whitespace](https://doc.rust-lang.org/reference/whitespace.html).
    Whitespace,

    /// A frontmatter: a block between two fences of dashes, which may come before the source in a file.
    Frontmatter {
        /// Whether the token starts with whitespace, which is an error. This whitespace does not end in a newline.
        has_invalid_preceding_whitespace: bool,
        /// Whether the line of the opening fence contains more than dashes, an infostring and blanks, or the text ends
        /// in that line. Both are errors.
        invalid_infostring: bool,
    },

    /// An identifier or a keyword, such as `value` or `while`.
    ///
    /// Rust Reference: [identifiers](https://doc.rust-lang.org/reference/identifiers.html).
    Ident,

    /// A word that is not an identifier because it contains an emoji.
    InvalidIdent,

    /// A raw identifier, such as `r#while`.
    ///
    /// Rust Reference: [raw identifiers](https://doc.rust-lang.org/reference/identifiers.html#raw-identifiers).
    RawIdent,

    /// A forced keyword, such as `k#while`.
    ForcedKeywordIdent,

    /// An identifier directly before `#`, `"` or `'`, such as `z` in `z"a"`. That character is not part of the token.
    ///
    /// Rust Reference: [reserved prefixes](https://doc.rust-lang.org/reference/tokens.html#reserved-prefixes).
    UnknownPrefix,

    /// A lifetime directly before `#`, such as `'z` in `'z#`. The `#` is not part of the token.
    ///
    /// Rust Reference: [reserved prefixes](https://doc.rust-lang.org/reference/tokens.html#reserved-prefixes).
    UnknownPrefixLifetime,

    /// A raw lifetime, such as `'r#while`.
    ///
    /// Rust Reference: [lifetimes and loop
    /// labels](https://doc.rust-lang.org/reference/tokens.html#lifetimes-and-loop-labels).
    RawLifetime,

    /// `#"` or `##`, which can start a guarded string.
    ///
    /// Rust Reference: [reserved guards](https://doc.rust-lang.org/reference/tokens.html#reserved-guards).
    GuardedStrPrefix,

    /// A literal with its suffix, such as `12u8` or `"note"`.
    ///
    /// Rust Reference: [literals](https://doc.rust-lang.org/reference/tokens.html#literals).
    Literal {
        /// The kind of the literal.
        kind: LiteralKind,
        /// The offset of the suffix, in bytes from the start of the token, or the length of the token if there is no
        /// suffix.
        suffix_start: u32,
    },

    /// A lifetime, such as `'a`.
    ///
    /// Rust Reference: [lifetimes and loop
    /// labels](https://doc.rust-lang.org/reference/tokens.html#lifetimes-and-loop-labels).
    Lifetime {
        /// Whether the name is invalid: it starts with an ASCII digit or an emoji, or it contains an emoji that cannot
        /// continue an identifier.
        starts_with_number: bool,
    },

    /// `;`
    Semi,
    /// `,`
    Comma,
    /// `.`
    Dot,
    /// `(`
    OpenParen,
    /// `)`
    CloseParen,
    /// `{`
    OpenBrace,
    /// `}`
    CloseBrace,
    /// `[`
    OpenBracket,
    /// `]`
    CloseBracket,
    /// `@`
    At,
    /// `#`
    Pound,
    /// `~`
    Tilde,
    /// `?`
    Question,
    /// `:`
    Colon,
    /// `$`
    Dollar,
    /// `=`
    Eq,
    /// `!`
    Bang,
    /// `<`
    Lt,
    /// `>`
    Gt,
    /// `-`
    Minus,
    /// `&`
    And,
    /// `|`
    Or,
    /// `+`
    Plus,
    /// `*`
    Star,
    /// `/`
    Slash,
    /// `^`
    Caret,
    /// `%`
    Percent,

    /// A character that starts no other token.
    Unknown,

    /// The end of the text. The token has length 0.
    Eof,
}

/// The kinds that have fields, as bits at their numbers. A `match` would compile to a jump for each kind, which the
/// processor cannot predict.
const WITH_FIELDS: u64 = 1 << 1 | 1 << 2 | 1 << 4 | 1 << 13 | 1 << 14;

impl TokenKind {
    /// Returns the name of the kind, which is the name of its variant, such as `Ident`.
    pub fn name(self) -> &'static str
        ensures { result.now ≡ (kind_entry self).1 }
    {
        self.entry().1
    }

    /// Returns the number of the kind. Numbers start at 1 and never change: a new kind gets a new number.
    #[inline(always)]
    pub fn number(self) -> u8
        ensures { result ≡ (kind_entry self).0 }
    {
        self.entry().0
    }

    /// Returns whether the kind has fields. Comments, frontmatters, literals and lifetimes do.
    #[inline(always)]
    pub fn has_fields(self) -> bool
        ensures { result ≡ has_fields self }
    {
        WITH_FIELDS >> self.number() & 1 == 1
    }

    /// Returns whether a parser skips the token: it is whitespace, or a comment that is not a doc comment.
    ///
    /// ```
    /// use rustc_lexer::{DocStyle, TokenKind};
    ///
    /// assert!(TokenKind::LineComment { doc_style: None }.is_trivia());
    /// assert!(!TokenKind::LineComment { doc_style: Some(DocStyle::Outer) }.is_trivia());
    /// ```
    pub fn is_trivia(self) -> bool
        ensures { result ≡ is_trivia self }
    {
        matches!(
            self,
            TokenKind::Whitespace
                | TokenKind::LineComment { doc_style: None }
                | TokenKind::BlockComment {
                    doc_style: None,
                    ..
                },
        )
    }

    /// Returns whether the token opens a group: it is `(`, `[` or `{`.
    ///
    /// ```
    /// use rustc_lexer::TokenKind;
    ///
    /// assert!(TokenKind::OpenParen.is_open() && !TokenKind::Lt.is_open());
    /// ```
    pub fn is_open(self) -> bool
        ensures { result ≡ opens_group self }
    {
        matches!(
            self,
            TokenKind::OpenParen | TokenKind::OpenBracket | TokenKind::OpenBrace
        )
    }

    /// Returns whether the token closes a group: it is `)`, `]` or `}`.
    ///
    /// ```
    /// use rustc_lexer::TokenKind;
    ///
    /// assert!(TokenKind::CloseParen.is_close() && !TokenKind::Gt.is_close());
    /// ```
    pub fn is_close(self) -> bool
        ensures { result ≡ closes_group self }
    {
        matches!(
            self,
            TokenKind::CloseParen | TokenKind::CloseBracket | TokenKind::CloseBrace
        )
    }

    /// Returns the number and the name of the kind.
    #[inline(always)]
    #[tactic(auto, unfolding(crate::specs::Kinds::kind_entry))]
    fn entry(self) -> (u8, &'static str)
        ensures number { result.0 ≡ (kind_entry self).0 }
        ensures name { result.1.now ≡ (kind_entry self).1 }
    {
        match self {
            TokenKind::LineComment { .. } => (1, "LineComment"),
            TokenKind::BlockComment { .. } => (2, "BlockComment"),
            TokenKind::Whitespace => (3, "Whitespace"),
            TokenKind::Frontmatter { .. } => (4, "Frontmatter"),
            TokenKind::Ident => (5, "Ident"),
            TokenKind::InvalidIdent => (6, "InvalidIdent"),
            TokenKind::RawIdent => (7, "RawIdent"),
            TokenKind::ForcedKeywordIdent => (8, "ForcedKeywordIdent"),
            TokenKind::UnknownPrefix => (9, "UnknownPrefix"),
            TokenKind::UnknownPrefixLifetime => (10, "UnknownPrefixLifetime"),
            TokenKind::RawLifetime => (11, "RawLifetime"),
            TokenKind::GuardedStrPrefix => (12, "GuardedStrPrefix"),
            TokenKind::Literal { .. } => (13, "Literal"),
            TokenKind::Lifetime { .. } => (14, "Lifetime"),
            TokenKind::Semi => (15, "Semi"),
            TokenKind::Comma => (16, "Comma"),
            TokenKind::Dot => (17, "Dot"),
            TokenKind::OpenParen => (18, "OpenParen"),
            TokenKind::CloseParen => (19, "CloseParen"),
            TokenKind::OpenBrace => (20, "OpenBrace"),
            TokenKind::CloseBrace => (21, "CloseBrace"),
            TokenKind::OpenBracket => (22, "OpenBracket"),
            TokenKind::CloseBracket => (23, "CloseBracket"),
            TokenKind::At => (24, "At"),
            TokenKind::Pound => (25, "Pound"),
            TokenKind::Tilde => (26, "Tilde"),
            TokenKind::Question => (27, "Question"),
            TokenKind::Colon => (28, "Colon"),
            TokenKind::Dollar => (29, "Dollar"),
            TokenKind::Eq => (30, "Eq"),
            TokenKind::Bang => (31, "Bang"),
            TokenKind::Lt => (32, "Lt"),
            TokenKind::Gt => (33, "Gt"),
            TokenKind::Minus => (34, "Minus"),
            TokenKind::And => (35, "And"),
            TokenKind::Or => (36, "Or"),
            TokenKind::Plus => (37, "Plus"),
            TokenKind::Star => (38, "Star"),
            TokenKind::Slash => (39, "Slash"),
            TokenKind::Caret => (40, "Caret"),
            TokenKind::Percent => (41, "Percent"),
            TokenKind::Unknown => (42, "Unknown"),
            TokenKind::Eof => (43, "Eof"),
        }
    }
}

/// The style of a doc comment: before the item that it documents, or inside it.
///
/// Rust Reference: [doc comments](https://doc.rust-lang.org/reference/comments.html#doc-comments).
#[derive(Clone, Copy, Debug, PartialEq, Eq)]
pub enum DocStyle {
    /// `///` or `/**`
    Outer,
    /// `//!` or `/*!`
    Inner,
}

/// The kind of a literal: a number, a character, a byte or a string, and whether it is complete. The suffix does not
/// matter: `1f32` is an `Int`.
///
/// ```
/// use rustc_lexer::LiteralKind;
///
/// let kind = LiteralKind::Str { terminated: true };
/// assert_eq!(kind.name(), "Str");
/// assert_eq!(kind.number(), 5);
/// ```
///
/// Rust Reference: [literals](https://doc.rust-lang.org/reference/tokens.html#literals).
#[derive(Clone, Copy, Debug, PartialEq, Eq, PartialOrd, Ord)]
pub enum LiteralKind {
    /// An integer, such as `12u8` or `0x1F`.
    ///
    /// Rust Reference: [integer literals](https://doc.rust-lang.org/reference/tokens.html#integer-literals).
    Int {
        /// The base of the digits.
        base: Base,
        /// Whether no digit follows the prefix, as in `0x`.
        empty_int: bool,
    },
    /// A number with a point or an exponent, such as `1.5` or `2e9`.
    ///
    /// Rust Reference: [floating-point
    /// literals](https://doc.rust-lang.org/reference/tokens.html#floating-point-literals).
    Float {
        /// The base of the digits.
        base: Base,
        /// Whether the exponent has no digits, as in `2e`.
        empty_exponent: bool,
    },
    /// A character, such as `'a'`.
    Char {
        /// Whether the closing quote is present.
        terminated: bool,
    },
    /// A byte, such as `b'a'`.
    Byte {
        /// Whether the closing quote is present.
        terminated: bool,
    },
    /// A string, such as `"note"`.
    Str {
        /// Whether the closing quote is present.
        terminated: bool,
    },
    /// A byte string, such as `b"note"`.
    ByteStr {
        /// Whether the closing quote is present.
        terminated: bool,
    },
    /// A C string, such as `c"note"`.
    CStr {
        /// Whether the closing quote is present.
        terminated: bool,
    },
    /// A raw string, such as `r"note"` or `r#"note"#`.
    RawStr {
        /// The number of hashes on each side, or `None` if the string is malformed.
        n_hashes: Option<u8>,
    },
    /// A raw byte string, such as `br"note"` or `br#"note"#`.
    RawByteStr {
        /// The number of hashes on each side, or `None` if the string is malformed.
        n_hashes: Option<u8>,
    },
    /// A raw C string, such as `cr"note"` or `cr#"note"#`.
    RawCStr {
        /// The number of hashes on each side, or `None` if the string is malformed.
        n_hashes: Option<u8>,
    },
}

impl LiteralKind {
    /// Returns the name of the kind, which is the name of its variant, such as `Int`.
    pub fn name(self) -> &'static str
        ensures { result.now ≡ (literal_entry self).1 }
    {
        self.entry().1
    }

    /// Returns the number of the kind. Numbers start at 1 and never change: a new kind gets a new number.
    #[inline(always)]
    pub fn number(self) -> u8
        ensures { result ≡ (literal_entry self).0 }
    {
        self.entry().0
    }

    /// Returns the number and the name of the kind.
    #[inline(always)]
    #[tactic(auto, unfolding(crate::specs::Kinds::literal_entry))]
    fn entry(self) -> (u8, &'static str)
        ensures number { result.0 ≡ (literal_entry self).0 }
        ensures name { result.1.now ≡ (literal_entry self).1 }
    {
        match self {
            LiteralKind::Int { .. } => (1, "Int"),
            LiteralKind::Float { .. } => (2, "Float"),
            LiteralKind::Char { .. } => (3, "Char"),
            LiteralKind::Byte { .. } => (4, "Byte"),
            LiteralKind::Str { .. } => (5, "Str"),
            LiteralKind::ByteStr { .. } => (6, "ByteStr"),
            LiteralKind::CStr { .. } => (7, "CStr"),
            LiteralKind::RawStr { .. } => (8, "RawStr"),
            LiteralKind::RawByteStr { .. } => (9, "RawByteStr"),
            LiteralKind::RawCStr { .. } => (10, "RawCStr"),
        }
    }
}

/// A guarded string, which is a string between hashes, such as `#"note"#`.
///
/// Rust Reference: [reserved guards](https://doc.rust-lang.org/reference/tokens.html#reserved-guards).
#[derive(Clone, Copy, Debug, PartialEq, Eq, PartialOrd, Ord)]
pub struct GuardedStr {
    /// The number of hashes before the string.
    pub n_hashes: u32,
    /// Whether the closing quote is present.
    pub terminated: bool,
    /// The length of the whole token in bytes, including the bytes that were pending.
    pub token_len: u32,
}

/// The error of a malformed raw string.
///
/// Rust Reference: [raw string literals](https://doc.rust-lang.org/reference/tokens.html#raw-string-literals).
#[derive(Clone, Copy, Debug, PartialEq, Eq, PartialOrd, Ord)]
pub enum RawStrError {
    /// There is no opening quote after the prefix and its hashes, as in `r#~"note"#`.
    InvalidStarter {
        /// The character found there, or U+0000 at the end of the text.
        bad_char: char,
    },
    /// The string is unterminated, as in `r##"note"#`.
    NoTerminator {
        /// The number of hashes that would terminate it.
        expected: u32,
        /// The maximum number of hashes that follow a quote in it.
        found: u32,
        /// The end of the first quote with `found` hashes after it, or `None` if `found` is 0. It is the number of
        /// bytes from the end of the prefix, plus the length of the prefix in characters.
        possible_terminator_offset: Option<u32>,
    },
    /// There are more than 255 hashes on each side.
    TooManyDelimiters {
        /// The number of hashes on each side.
        found: u32,
    },
}

impl fmt::Display for RawStrError {
    ghost output = { λ error. Some (raw_str_text error) };

    fn fmt<W: fmt::Write>(&self, f: &mut fmt::Formatter<W>) -> fmt::Result {
        match self {
            RawStrError::InvalidStarter { .. } => {
                f.write_str("invalid raw string: missing opening quote")
            }
            RawStrError::NoTerminator {
                expected,
                found,
                possible_terminator_offset: Some(end),
            } => write!(
                f,
                "unterminated raw string: expected {expected} `#` after the closing quote, found {found} at byte {end}"
            ),
            RawStrError::NoTerminator { expected, .. } if *expected == 0 => {
                f.write_str("unterminated raw string: missing closing quote")
            }
            RawStrError::NoTerminator { expected, .. } => write!(
                f,
                "unterminated raw string: expected a closing quote and {expected} `#`"
            ),
            RawStrError::TooManyDelimiters { found } => write!(
                f,
                "raw string with {found} `#` on each side: at most 255 are allowed"
            ),
        }
    }
}

impl Error for RawStrError {}

/// The base of a number.
///
/// Rust Reference: [integer literals](https://doc.rust-lang.org/reference/tokens.html#integer-literals).
#[derive(Clone, Copy, Debug, PartialEq, Eq, PartialOrd, Ord)]
pub enum Base {
    /// Base 2, with the prefix `0b`.
    Binary = 2,
    /// Base 8, with the prefix `0o`.
    Octal = 8,
    /// Base 10, without a prefix.
    Decimal = 10,
    /// Base 16, with the prefix `0x`.
    Hexadecimal = 16,
}

/// Whether a text may start with a frontmatter.
///
/// Rust RFC 3503: [frontmatter](https://rust-lang.github.io/rfcs/3503-frontmatter.html).
#[derive(Clone, Copy, PartialEq, Eq)]
pub enum FrontmatterAllowed {
    /// The text may start with a frontmatter: it is a file after its shebang line.
    Yes,
    /// The text has no frontmatter: it is a fragment of a file.
    No,
}
