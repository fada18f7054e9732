//! The contents of a literal: its mode, and the text between its quotes.
ghost use Rattle.std.specs.Prelude.{◌≡◌, ◌+◌, ◌≤◌, ◌<◌, length, IfSome};
ghost use Rattle.std.specs.Str.{IsCharBoundary};
ghost use Rattle.rustc_lexer_errors.specs.Literal as spec;

use memchr::{memchr, memrchr};
use rustc_lexer::{LiteralKind, TokenKind};
use rustc_literal_escaper::Mode;
use std::ops::Range;

/// Returns the mode of a terminated literal, or `None` for a number, an unterminated literal and any other token.
pub fn mode_of(kind: TokenKind) -> Option<Mode>
    ensures { result ≡ spec.closed_mode kind }
{
    let TokenKind::Literal { kind, .. } = kind else {
        return None;
    };
    match kind {
        LiteralKind::Char { terminated: true } => Some(Mode::Char),
        LiteralKind::Byte { terminated: true } => Some(Mode::Byte),
        LiteralKind::Str { terminated: true } => Some(Mode::Str),
        LiteralKind::ByteStr { terminated: true } => Some(Mode::ByteStr),
        LiteralKind::CStr { terminated: true } => Some(Mode::CStr),
        LiteralKind::RawStr { n_hashes: Some(_) } => Some(Mode::RawStr),
        LiteralKind::RawByteStr { n_hashes: Some(_) } => Some(Mode::RawByteStr),
        LiteralKind::RawCStr { n_hashes: Some(_) } => Some(Mode::RawCStr),
        _ => None,
    }
}

/// Returns the [`Mode`] of a literal, and the byte range between its quotes.
///
/// Returns `None` for a number, an unterminated literal and a token that is not a literal. A suffix may follow the
/// closing quote.
///
/// The functions of `rustc_literal_escaper` accept this mode and the text in this range. The ranges that they report
/// are relative to its start.
///
/// # Examples
///
/// ```
/// use rustc_lexer_errors::literal_contents;
/// use rustc_lexer::{FrontmatterAllowed, tokenize};
/// use rustc_literal_escaper::{Mode, check_for_errors};
///
/// let text = r#"b"a\q"suffix"#;
/// let token = tokenize(text, FrontmatterAllowed::No).next().unwrap();
/// let (mode, range) = literal_contents(token.kind, text).unwrap();
/// assert_eq!((mode, range.clone()), (Mode::ByteStr, 2..5));
///
/// check_for_errors(&text[range.clone()], mode, |wrong, _| {
///     assert_eq!(&text[range.start + wrong.start..range.start + wrong.end], r"\q");
/// });
/// ```
pub fn literal_contents(kind: TokenKind, text: &str) -> Option<(Mode, Range<usize>)>
    ensures value { result ≡ spec.contents kind text.now }
    ensures places { IfSome result (λ found. IsCharBoundary text.now found.1.start
        × IsCharBoundary text.now found.1.end × (found.1.start ≤ found.1.end)) }
{
    let mode = mode_of(kind)?;
    let (start, end) = between_quotes(mode, text)?;
    Some((mode, start..end))
}

/// Returns the offsets at which the contents of a literal start and end, or `None` if it does not have two quotes.
pub fn between_quotes(mode: Mode, text: &str) -> Option<(usize, usize)>
    ensures places { result ≡ spec.contents_places mode text.now }
    ensures inside { IfSome result (λ places. IsCharBoundary text.now places.0
        × IsCharBoundary text.now places.1 × (places.0 ≤ places.1)) }
{
    let quote = quote_of(mode);
    let first = first_offset(quote, text);
    let last = last_offset(quote, text);
    if first < last {
        Some((first + 1, last))
    } else {
        None
    }
}

/// Returns the quote of a literal of this mode.
fn quote_of(mode: Mode) -> u8
    ensures value { result ≡ spec.delimiter mode }
    ensures ascii { result < 128 }
{
    if mode.in_double_quotes() { b'"' } else { b'\'' }
}

/// Returns the offset of the first byte with this value, or the length of the text if there is none.
#[tactic(auto, using(crate::proofs::PlaceLemmas::place_found, crate::proofs::PlaceLemmas::place_none, crate::proofs::PlaceLemmas::past_first))]
pub fn first_offset(byte: u8, text: &str) -> usize
    requires ascii { byte < 128 }
    ensures value { result ≡ spec.first_offset byte text.now }
    ensures past { result < length text.now → IsCharBoundary text.now (result + 1) }
{
    memchr(byte, text.as_bytes()).unwrap_or(text.len())
}

/// Returns the offset of the last byte with this value, or 0 if there is none.
#[tactic(auto, using(crate::proofs::PlaceLemmas::last_found, crate::proofs::PlaceLemmas::last_none, crate::proofs::PlaceLemmas::place_lemmas))]
fn last_offset(byte: u8, text: &str) -> usize
    requires ascii { byte < 128 }
    ensures value { result ≡ spec.last_offset byte text.now }
    ensures place { IsCharBoundary text.now result }
{
    memrchr(byte, text.as_bytes()).unwrap_or(0)
}
