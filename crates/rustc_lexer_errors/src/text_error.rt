//! Errors in the text of a token that its kind does not imply.
ghost use Rattle.std.specs.Prelude.{◌≡◌, drop};
ghost use Rattle.std.specs.List.{between, list_any};
ghost use Rattle.std.specs.Str.{chars};
ghost use Rattle.rustc_lexer.specs.Classes.{Fits};
ghost use Rattle.rustc_lexer_errors.specs.TextError as spec;

use crate::errors::TokenError;
use crate::frontmatter::run_of;
use memchr::memchr;
use rustc_lexer::{Base, DocStyle, LiteralKind};

/// Returns the error in the text of a comment, or `None` if there is none.
#[inline(never)]
pub fn comment_error(doc_style: Option<DocStyle>, text: &str) -> Option<TokenError>
    requires fits { Fits text.now }
    ensures { result ≡ spec.comment_error doc_style text.now }
{
    match doc_style {
        None => direction_error(text),
        Some(_) if has_bare_return(text.as_bytes()) => Some(
            TokenError::BareCarriageReturnInDocComment,
        ),
        Some(_) => direction_error(text),
    }
}

/// Returns the error in the text of a frontmatter, or `None` if there is none.
pub fn frontmatter_text_error(text: &str) -> Option<TokenError>
    requires fits { Fits text.now }
    ensures { result ≡ spec.frontmatter_error text.now }
{
    if has_bare_return(text.as_bytes()) {
        return Some(TokenError::BareCarriageReturnInFrontmatter);
    }
    let dashes = run_of(b"-", text.as_bytes());
    if dashes > 255 {
        return Some(TokenError::TooManyDashes {
            found: dashes as u32,
        });
    }
    None
}

/// Returns whether a text contains a bare carriage return, which is followed by a byte other than a newline.
#[tactic(auto, using(crate::proofs::TextErrorLemmas::after_return, crate::proofs::TextErrorLemmas::no_return, crate::proofs::TextErrorLemmas::rest_fits, std::proofs::lemmas::Grind::common_steps))]
fn has_bare_return(bytes: &[u8]) -> bool
    requires fits { Fits bytes.now }
    ensures { result ≡ spec.has_bare_return bytes.now }
{
    let mut rest = bytes;
    while let Some(at) = memchr(b'\r', rest) {
        rest = &rest[at + 1..];
        if goes_on(rest) {
            return true;
        }
    }
    false
}

/// Returns whether a text starts with a byte other than a newline.
fn goes_on(bytes: &[u8]) -> bool
    ensures { result ≡ spec.goes_on bytes.now }
{
    matches!(bytes, [byte, ..] if *byte != b'\n')
}

/// Returns the error of a text that contains a bidirectional control character, or `None` if it contains none.
#[tactic(auto, using(crate::proofs::TextErrorLemmas::ascii_stays))]
fn direction_error(text: &str) -> Option<TokenError>
    ensures { result ≡ spec.direction_error text.now }
{
    // Most texts are ASCII, and `is_ascii` reads at least eight bytes at a time.
    (!text.is_ascii() && has_turn(text)).then_some(TokenError::TextDirectionCodepoint)
}

/// Returns whether a text contains a bidirectional control character.
fn has_turn(text: &str) -> bool
    ensures { result ≡ list_any spec.turns_direction (chars text.now) }
{
    text.chars().any(turns_direction)
}

/// Returns whether a character is a bidirectional control character.
fn turns_direction(c: char) -> bool
    ensures { result ≡ spec.turns_direction c }
{
    matches!(c, '\u{202a}'..='\u{202e}' | '\u{2066}'..='\u{2069}')
}

/// The raw identifiers and raw lifetimes that are not allowed.
const NEVER_RAW: [&str; 10] = [
    "r#self", "r#Self", "r#super", "r#crate", "r#_", "'r#self", "'r#Self", "'r#super", "'r#crate",
    "'r#_",
];

/// Returns the error of a raw identifier or a raw lifetime, or `None` if it has none.
#[inline(never)]
pub fn raw_name_error(text: &str) -> Option<TokenError>
    ensures { result ≡ spec.raw_name_error text.now }
{
    NEVER_RAW.contains(&text).then_some(TokenError::RawKeyword)
}

/// Returns the error in the text of a literal whose suffix starts at this offset, or `None` if there is none.
pub fn literal_text_error(kind: LiteralKind, suffix_start: usize, text: &str) -> Option<TokenError>
    ensures { result ≡ spec.literal_text_error kind suffix_start text.now }
{
    match kind {
        LiteralKind::Int {
            base: Base::Binary,
            ..
        } => digit_error(b"01_", digits_of(suffix_start, text.as_bytes())),
        LiteralKind::Int {
            base: Base::Octal,
            ..
        } => digit_error(b"01234567_", digits_of(suffix_start, text.as_bytes())),
        LiteralKind::Int { .. }
        | LiteralKind::Float {
            base: Base::Decimal,
            ..
        } => None,
        LiteralKind::Float { .. } => Some(TokenError::FloatOfBase),
        LiteralKind::Byte { .. } | LiteralKind::ByteStr { .. } | LiteralKind::RawByteStr { .. } => {
            suffix_error(suffix_start, text.as_bytes())
        }
        _ => match suffix_error(suffix_start, text.as_bytes()) {
            None => direction_error(text),
            error => error,
        },
    }
}

/// Returns the digits of a number between the prefix of its base and its suffix.
#[tactic(auto, using(crate::proofs::TextErrorLemmas::digits_here))]
fn digits_of(suffix_start: usize, text: &[u8]) -> &[u8]
    ensures { result.now ≡ between 2 suffix_start text.now }
{
    let end = suffix_start.min(text.len());
    &text[end.min(2)..end]
}

/// Returns the error of the digits of a number whose base allows only `these` bytes, or `None` if there is none.
fn digit_error(these: &[u8], digits: &[u8]) -> Option<TokenError>
    ensures { result ≡ spec.digit_error these.now digits.now }
{
    (run_of(these, digits) != digits.len()).then_some(TokenError::InvalidDigit)
}

/// Returns the error of the suffix of a literal, or `None` if there is none.
#[tactic(auto, using(crate::proofs::TextErrorLemmas::suffix_here))]
fn suffix_error(suffix_start: usize, text: &[u8]) -> Option<TokenError>
    ensures { result ≡ spec.suffix_error (drop suffix_start text.now) }
{
    let suffix = &text[suffix_start.min(text.len())..];
    (suffix.len() == 1 && suffix[0] == b'_').then_some(TokenError::UnderscoreSuffix)
}
