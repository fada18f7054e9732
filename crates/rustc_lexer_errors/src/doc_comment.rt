//! The contents of a doc comment: its text without the markers.
ghost use Rattle.std.specs.Prelude.{◌≡◌, ◌≤◌, IfSome};
ghost use Rattle.std.specs.Str.{IsCharBoundary};
ghost use Rattle.rustc_lexer_errors.specs.DocComment as spec;

use rustc_lexer::{DocStyle, TokenKind};
use std::ops::Range;

/// Returns the byte range of a doc comment without its markers: `///`, `//!`, `/**`, `/*!` and `*/`.
///
/// Returns `None` for a comment that is not a doc comment, and for any other token. An unterminated block comment has no
/// end marker. A carriage return at the end of a line comment is part of a CRLF, and not of the range.
///
/// # Examples
///
/// ```
/// use rustc_lexer_errors::doc_comment_contents;
/// use rustc_lexer::{FrontmatterAllowed, tokenize};
///
/// let contents = |text: &'static str| {
///     let token = tokenize(text, FrontmatterAllowed::No).next().unwrap();
///     Some(&text[doc_comment_contents(token.kind, text)?])
/// };
/// assert_eq!(contents("/// Adds one."), Some(" Adds one."));
/// assert_eq!(contents("/*! Sums. */"), Some(" Sums. "));
/// assert_eq!(contents("// plain"), None);
/// ```
#[tactic(auto, using(std::proofs::lemmas::Grind::common_steps))]
pub fn doc_comment_contents(kind: TokenKind, text: &str) -> Option<Range<usize>>
    ensures value { result ≡ spec.doc_comment_contents kind text.now }
    ensures places { IfSome result (λ range. IsCharBoundary text.now range.start
        × IsCharBoundary text.now range.end × (range.start ≤ range.end)) }
{
    match kind {
        TokenKind::LineComment {
            doc_style: Some(style),
        } => range_between(line_marker(style), line_end(text), text),
        TokenKind::BlockComment {
            doc_style: Some(style),
            terminated,
        } => range_between(block_marker(style), block_end(terminated), text),
        _ => None,
    }
}

/// Returns the marker that a line doc comment starts with.
fn line_marker(style: DocStyle) -> &'static str
    ensures { result.now ≡ spec.line_marker style }
{
    match style {
        DocStyle::Outer => "///",
        DocStyle::Inner => "//!",
    }
}

/// Returns the marker that a block doc comment starts with.
fn block_marker(style: DocStyle) -> &'static str
    ensures { result.now ≡ spec.block_marker style }
{
    match style {
        DocStyle::Outer => "/**",
        DocStyle::Inner => "/*!",
    }
}

/// Returns the carriage return of a CRLF if a line comment ends with one, or an empty text.
#[tactic(auto, using(crate::proofs::DocCommentLemmas::pattern_lemmas))]
fn line_end(text: &str) -> &'static str
    ensures { result.now ≡ spec.line_end text.now }
{
    if text.ends_with("\r") { "\r" } else { "" }
}

/// Returns the end marker of a block comment if it is terminated, or an empty text.
fn block_end(terminated: bool) -> &'static str
    ensures { result.now ≡ spec.block_end terminated }
{
    if terminated { "*/" } else { "" }
}

/// Returns the range between a start and an end of a text, or `None` if the text does not consist of the start, the
/// range and the end.
#[tactic(auto, using(crate::proofs::DocCommentLemmas::pattern_lemmas))]
fn range_between(start: &str, end: &str, text: &str) -> Option<Range<usize>>
    ensures value { result ≡ spec.range_between start.now end.now text.now }
    ensures places { IfSome result (λ range. IsCharBoundary text.now range.start
        × IsCharBoundary text.now range.end × (range.start ≤ range.end)) }
{
    if start.len() + end.len() <= text.len() && text.starts_with(start) && text.ends_with(end) {
        Some(start.len()..text.len() - end.len())
    } else {
        None
    }
}
