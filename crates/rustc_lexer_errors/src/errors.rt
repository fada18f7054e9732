//! Errors of malformed tokens, with their messages.
ghost use Rattle.std.specs.Prelude.{◌≡◌, Some, false};
ghost use Rattle.std.specs.Option.{option_or};
ghost use Rattle.rustc_lexer.specs.Classes.{Fits};
ghost use Rattle.rustc_lexer_errors.specs.TokenError.{error_number, token_error, literal_error};
ghost use Rattle.rustc_lexer_errors.specs.TokenError.{raw_error, message};
ghost use Rattle.rustc_lexer_errors.specs.model.Frontmatter.{error_in_front};
ghost use Rattle.rustc_lexer_errors.specs.TextError.{literal_text_error};

use crate::frontmatter::{end_error, has_crlf};
use crate::text_error::{
    comment_error, frontmatter_text_error, literal_text_error, raw_name_error,
};
use rustc_lexer::{Edition, LiteralKind, RawStrError, TokenKind, starts_raw, validate_raw_str};
use rustc_literal_escaper::EscapeError;
use std::error::Error;
use std::fmt;

/// An error in a token. Its `Display` writes a message.
///
/// [`token_error`](crate::token_error) never returns `InLiteral`, since a literal can contain many such errors. To find
/// them, pass the text from [`literal_contents`](crate::literal_contents) to
/// [`EscapeErrorsInFile`](crate::EscapeErrorsInFile).
#[derive(Clone, Copy, Debug, PartialEq, Eq)]
#[non_exhaustive]
pub enum TokenError {
    /// A block comment is unterminated.
    UnterminatedBlockComment,
    /// Whitespace precedes the opening fence of a frontmatter.
    WhitespaceBeforeFrontmatter,
    /// The text after the opening fence of a frontmatter is not a valid infostring.
    InvalidInfostring,
    /// A frontmatter is unclosed.
    UnclosedFrontmatter,
    /// Whitespace precedes the closing fence of a frontmatter.
    WhitespaceBeforeFrontmatterClose,
    /// The opening and the closing fence of a frontmatter have different numbers of dashes.
    FrontmatterCloseMismatch { opening: u32, closing: u32 },
    /// Other text follows the closing fence of a frontmatter on its line.
    ExtraAfterFrontmatterClose,
    /// An identifier contains an emoji.
    InvalidName,
    /// An identifier directly before a quote or `#` is not a known prefix. This includes `k` in `k#a` since 2021.
    UnknownPrefix,
    /// A lifetime directly before `#` is not a known prefix.
    UnknownLifetimePrefix,
    /// The text starts with `#"` or `##`, which are reserved for guarded strings.
    GuardedString,
    /// The name of a lifetime starts with an ASCII digit or an emoji, or contains an emoji that cannot continue an
    /// identifier.
    InvalidLifetime,
    /// No token starts with this character.
    UnknownCharacter,
    /// A number has no digits after the prefix of its base.
    EmptyNumber,
    /// An exponent has no digits.
    EmptyExponent,
    /// A character literal is unterminated.
    UnterminatedChar,
    /// A byte literal is unterminated.
    UnterminatedByte,
    /// A string, byte string or C string is unterminated.
    UnterminatedString,
    /// A raw string has no opening quote.
    InvalidRawStarter,
    /// A raw string is unterminated, and no quote in it is followed by `#`.
    UnterminatedRawString { expected: u32 },
    /// A raw string is unterminated: too few `#` follow the quote that ends at byte `end` of it.
    TooFewHashes { expected: u32, found: u32, end: u32 },
    /// A raw string has more than 255 `#` on each side.
    TooManyHashes { found: u32 },
    /// The contents of a literal have an error or a warning.
    InLiteral(EscapeError),
    /// A binary or octal number contains a digit that is invalid in its base.
    InvalidDigit,
    /// A number that is not decimal has a decimal point or an exponent.
    FloatOfBase,
    /// A raw identifier or a raw lifetime has the name `self`, `Self`, `super`, `crate` or `_`.
    RawKeyword,
    /// The suffix of a literal is `_`.
    UnderscoreSuffix,
    /// A doc comment contains a bare carriage return.
    BareCarriageReturnInDocComment,
    /// A frontmatter contains a bare carriage return.
    BareCarriageReturnInFrontmatter,
    /// The fences of a frontmatter have more than 255 dashes each.
    TooManyDashes { found: u32 },
    /// A comment or a literal contains a bidirectional control character, which changes the direction of text.
    TextDirectionCodepoint,
}

impl TokenError {
    /// Returns the number of the error in the C ABI, from 1 on. It never changes.
    pub fn number(self) -> u8
        ensures { result ≡ error_number self }
    {
        match self {
            TokenError::UnterminatedBlockComment => 1,
            TokenError::WhitespaceBeforeFrontmatter => 2,
            TokenError::InvalidInfostring => 3,
            TokenError::UnclosedFrontmatter => 4,
            TokenError::WhitespaceBeforeFrontmatterClose => 5,
            TokenError::FrontmatterCloseMismatch { .. } => 6,
            TokenError::ExtraAfterFrontmatterClose => 7,
            TokenError::InvalidName => 8,
            TokenError::UnknownPrefix => 9,
            TokenError::UnknownLifetimePrefix => 10,
            TokenError::GuardedString => 11,
            TokenError::InvalidLifetime => 12,
            TokenError::UnknownCharacter => 13,
            TokenError::EmptyNumber => 14,
            TokenError::EmptyExponent => 15,
            TokenError::UnterminatedChar => 16,
            TokenError::UnterminatedByte => 17,
            TokenError::UnterminatedString => 18,
            TokenError::InvalidRawStarter => 19,
            TokenError::UnterminatedRawString { .. } => 20,
            TokenError::TooFewHashes { .. } => 21,
            TokenError::TooManyHashes { .. } => 22,
            TokenError::InLiteral(_) => 23,
            TokenError::InvalidDigit => 24,
            TokenError::FloatOfBase => 25,
            TokenError::RawKeyword => 26,
            TokenError::UnderscoreSuffix => 27,
            TokenError::BareCarriageReturnInDocComment => 28,
            TokenError::BareCarriageReturnInFrontmatter => 29,
            TokenError::TooManyDashes { .. } => 30,
            TokenError::TextDirectionCodepoint => 31,
        }
    }
}

/// Returns the error of a token with this kind and text in an edition, or one of its errors if it has two. A CRLF
/// counts as a newline, and so does a carriage return at the end of a doc comment or a frontmatter.
///
/// Before 2021, `k#a` has no error: it is an identifier, `#` and an identifier. C strings are read as in later
/// editions, although rustc reads the `c` or `cr` in `c"`, `cr"` and `cr#` as an identifier before 2021.
pub fn token_error(kind: TokenKind, text: &str, edition: Edition) -> Option<TokenError>
    requires fits { Fits text.now }
    ensures { result ≡ token_error kind text.now edition }
{
    // Most tokens match the last arm. The calls are not inlined, so that this arm needs no stack frame.
    match kind {
        TokenKind::LineComment { doc_style } => comment_error(doc_style, text),
        TokenKind::BlockComment {
            terminated: false,
            ..
        } => Some(TokenError::UnterminatedBlockComment),
        TokenKind::BlockComment { doc_style, .. } => comment_error(doc_style, text),
        TokenKind::Frontmatter {
            has_invalid_preceding_whitespace: true,
            ..
        } => Some(TokenError::WhitespaceBeforeFrontmatter),
        TokenKind::Frontmatter {
            invalid_infostring,
            ..
        } => frontmatter_error(invalid_infostring, text),
        TokenKind::RawIdent | TokenKind::RawLifetime => raw_name_error(text),
        TokenKind::Literal { kind, suffix_start } => {
            literal_error(kind, suffix_start as usize, text)
        }
        TokenKind::InvalidIdent => Some(TokenError::InvalidName),
        TokenKind::UnknownPrefix => Some(TokenError::UnknownPrefix),
        TokenKind::ForcedKeywordIdent => match edition {
            Edition::E2015 | Edition::E2018 => None,
            _ => Some(TokenError::UnknownPrefix),
        },
        TokenKind::UnknownPrefixLifetime => Some(TokenError::UnknownLifetimePrefix),
        TokenKind::GuardedStrPrefix => Some(TokenError::GuardedString),
        TokenKind::Lifetime {
            starts_with_number: true,
        } => Some(TokenError::InvalidLifetime),
        TokenKind::Unknown => Some(TokenError::UnknownCharacter),
        _ => None,
    }
}

/// Returns the error of a frontmatter without leading whitespace, or `None` if it has none. An error at its end comes
/// first, then an invalid infostring, then an error in its text.
#[inline(never)]
fn frontmatter_error(invalid_infostring: bool, text: &str) -> Option<TokenError>
    requires fits { Fits text.now }
    ensures { result ≡ error_in_front false invalid_infostring text.now }
{
    match end_error(text) {
        None if invalid_infostring && !has_crlf(text) => Some(TokenError::InvalidInfostring),
        None => frontmatter_text_error(text),
        error => error,
    }
}

/// Returns the error of a literal, or `None` if it has none. An error that its kind implies comes before an error in
/// its text.
#[inline(never)]
fn literal_error(kind: LiteralKind, suffix_start: usize, text: &str) -> Option<TokenError>
    requires fits { Fits text.now }
    ensures { result ≡ option_or (literal_error kind text.now)
        (literal_text_error kind suffix_start text.now) }
{
    match literal_kind_error(kind, text) {
        None => literal_text_error(kind, suffix_start, text),
        error => error,
    }
}

/// Returns the error that the kind of a literal implies, or `None` if it implies none.
fn literal_kind_error(kind: LiteralKind, text: &str) -> Option<TokenError>
    requires fits { Fits text.now }
    ensures { result ≡ literal_error kind text.now }
{
    match kind {
        LiteralKind::Int {
            empty_int: true,
            ..
        } => Some(TokenError::EmptyNumber),
        LiteralKind::Float {
            empty_exponent: true,
            ..
        } => Some(TokenError::EmptyExponent),
        LiteralKind::Char { terminated: false } => Some(TokenError::UnterminatedChar),
        LiteralKind::Byte { terminated: false } => Some(TokenError::UnterminatedByte),
        LiteralKind::Str { terminated: false }
        | LiteralKind::ByteStr { terminated: false }
        | LiteralKind::CStr { terminated: false } => Some(TokenError::UnterminatedString),
        LiteralKind::RawStr { n_hashes: None } => raw_error(text, 1),
        LiteralKind::RawByteStr { n_hashes: None } | LiteralKind::RawCStr { n_hashes: None } => {
            raw_error(text, 2)
        }
        _ => None,
    }
}

/// Returns the error of a raw string whose prefix has `prefix_len` characters, or `None` if it has none.
fn raw_error(text: &str, prefix_len: u32) -> Option<TokenError>
    requires fits { Fits text.now }
    ensures { result ≡ raw_error text.now prefix_len }
{
    if !starts_raw(text, prefix_len) {
        return None;
    }
    match validate_raw_str(text, prefix_len) {
        Ok(()) => None,
        Err(RawStrError::InvalidStarter { .. }) => Some(TokenError::InvalidRawStarter),
        Err(
            RawStrError::NoTerminator {
                expected,
                found,
                possible_terminator_offset: Some(end),
            },
        ) => Some(TokenError::TooFewHashes {
            expected,
            found,
            end,
        }),
        Err(RawStrError::NoTerminator { expected, .. }) => Some(TokenError::UnterminatedRawString {
            expected,
        }),
        Err(RawStrError::TooManyDelimiters { found }) => Some(TokenError::TooManyHashes { found }),
    }
}

impl fmt::Display for TokenError {
    ghost output = { λ error. Some (message error) };

    #[tactic(auto, unfolding(crate::specs::TokenError::message))]
    fn fmt<W: fmt::Write>(&self, f: &mut fmt::Formatter<W>) -> fmt::Result {
        match self {
            TokenError::UnterminatedBlockComment => f.write_str("unterminated block comment"),
            TokenError::WhitespaceBeforeFrontmatter => f.write_str(
                "whitespace before the opening fence of a frontmatter",
            ),
            TokenError::InvalidInfostring => f.write_str(
                "invalid infostring: expected at most one name after the opening fence",
            ),
            TokenError::UnclosedFrontmatter => f.write_str(
                "unclosed frontmatter: missing closing fence",
            ),
            TokenError::WhitespaceBeforeFrontmatterClose => f.write_str(
                "whitespace before the closing fence of a frontmatter",
            ),
            TokenError::ExtraAfterFrontmatterClose => f.write_str(
                "unexpected text after the closing fence of a frontmatter",
            ),
            TokenError::InvalidName => f.write_str("invalid identifier: contains an emoji"),
            TokenError::UnknownPrefix => f.write_str("unknown prefix before a quote or `#`"),
            TokenError::UnknownLifetimePrefix => f.write_str("unknown lifetime prefix before `#`"),
            TokenError::GuardedString => f.write_str("reserved syntax: guarded string"),
            TokenError::InvalidLifetime => f.write_str(
                "invalid lifetime: starts with a digit or contains an emoji",
            ),
            TokenError::UnknownCharacter => f.write_str(
                "unexpected character: no token starts with it",
            ),
            TokenError::EmptyNumber => f.write_str("number has no digits"),
            TokenError::EmptyExponent => f.write_str("exponent has no digits"),
            TokenError::UnterminatedChar => f.write_str(
                "unterminated character literal: missing closing quote",
            ),
            TokenError::UnterminatedByte => f.write_str(
                "unterminated byte literal: missing closing quote",
            ),
            TokenError::UnterminatedString => f.write_str(
                "unterminated string: missing closing quote",
            ),
            TokenError::InvalidRawStarter => f.write_str(
                "invalid raw string: missing opening quote",
            ),
            TokenError::InLiteral(error) => error.fmt(f),
            TokenError::InvalidDigit => f.write_str("invalid digit in a binary or octal number"),
            TokenError::FloatOfBase => f.write_str(
                "invalid float: only a decimal number can have a point or an exponent",
            ),
            TokenError::RawKeyword => f.write_str(
                "invalid raw identifier or lifetime: this name cannot be raw",
            ),
            TokenError::UnderscoreSuffix => f.write_str("invalid literal suffix `_`"),
            TokenError::BareCarriageReturnInDocComment => f.write_str(
                "bare CR in a doc comment: a CR must be part of a CRLF",
            ),
            TokenError::BareCarriageReturnInFrontmatter => f.write_str(
                "bare CR in a frontmatter: a CR must be part of a CRLF",
            ),
            TokenError::TextDirectionCodepoint => f.write_str(
                "bidirectional control character: code may be displayed in a different order",
            ),
            TokenError::UnterminatedRawString { expected } if *expected == 0 => {
                f.write_str("unterminated raw string: missing closing quote")
            }
            TokenError::UnterminatedRawString { expected } => write!(
                f,
                "unterminated raw string: expected a closing quote and {expected} `#`"
            ),
            TokenError::TooFewHashes {
                expected,
                found,
                end,
            } => write!(
                f,
                "unterminated raw string: expected {expected} `#` after the closing quote, found {found} at byte {end}"
            ),
            TokenError::FrontmatterCloseMismatch { opening, closing } => write!(
                f,
                "frontmatter opens with {opening} dashes but closes with {closing}"
            ),
            TokenError::TooManyHashes { found } => write!(
                f,
                "raw string with {found} `#` on each side: at most 255 are allowed"
            ),
            TokenError::TooManyDashes { found } => write!(
                f,
                "frontmatter fence with {found} dashes: at most 255 are allowed"
            ),
        }
    }
}

impl Error for TokenError {}
