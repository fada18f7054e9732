//! The shebang line and the byte order mark that a document may start with.
ghost use Rattle.std.specs.Prelude.{◌≡◌, ◌≤◌, IfSome, IsNone, codes, false, length, unwrap_or};
ghost use Rattle.std.specs.Str.{IsCharBoundary};
ghost use Rattle.rustc_lexer.specs.Answers.{shebang};
ghost use Rattle.rustc_lexer.specs.Classes.{Fits, begins};
ghost use Rattle.rustc_lexer.specs.Document as document;
ghost use Rattle.rustc_lexer.specs.LanguageText.{part, newest};
ghost use Rattle.rustc_lexer.specs.model.Shebang as spec;
ghost use Rattle.rustc_lexer.specs.Tokens.{tokens_of};

use crate::entry::tokenize;
use crate::scan::split_first;
use crate::token::{FrontmatterAllowed, TokenKind};

/// Returns the length of the shebang line at the start of a text in bytes, without its line ending, or `None` if there
/// is none. The text may have at most `u32::MAX` bytes.
///
/// A shebang line starts with `#!`. If the next token after whitespace and comments that are not doc comments is `[`,
/// the text starts with an attribute instead.
///
/// Rust Reference: [shebang removal](https://doc.rust-lang.org/reference/input-format.html#shebang-removal).
///
/// ```ignore
/// let line = strip_shebang("#!/bin/sh\nfn"); // Some(9)
/// let attribute = strip_shebang("#![no_std]"); // None
/// ```
#[tactic(auto, using(crate::proofs::lemmas::tokens::Shebang::shebang_lemmas, std::proofs::lemmas::Grind::common_steps))]
pub fn strip_shebang(input: &str) -> Option<usize>
    requires fits { Fits input.now }
    ensures line { result ≡ shebang input.now }
    ensures range { IfSome result (λ end. (2 ≤ end) × (end ≤ length input.now)) }
    ensures boundary { IfSome result (λ end. IsCharBoundary input.now end) }
    ensures front { begins (codes "#!") input.now ≡ false → IsNone result }
{
    let tail = input.strip_prefix("#!")?;
    if is_attribute(tail) {
        return None;
    }
    Some(2 + line_len(tail))
}

/// Returns the offset of the first token of a document, in bytes: only a byte order mark and a shebang line come
/// before it.
pub(crate) fn tokens_start(text: &str) -> usize
    requires fits { Fits text.now }
    ensures start { result ≡ document.tokens_start text.now }
    ensures boundary { IsCharBoundary text.now result }
{
    let mark = byte_order_mark_len(text);
    mark + line_end(&text[mark..])
}

/// Returns the length of the shebang line in bytes, or 0 if there is none.
#[tactic(auto, using(crate::proofs::lemmas::tokens::Shebang::boundary_lemmas, std::proofs::lemmas::Grind::common_steps))]
fn line_end(text: &str) -> usize
    requires fits { Fits text.now }
    ensures len { result ≡ unwrap_or (shebang text.now) 0 }
    ensures boundary { IsCharBoundary text.now result }
{
    strip_shebang(text).unwrap_or(0)
}

/// Returns the length of the byte order mark at the start of a text in bytes, or 0 if there is none.
#[tactic(auto, using(crate::proofs::lemmas::tokens::Shebang::mark_boundary, std::proofs::lemmas::Grind::common_steps))]
pub fn byte_order_mark_len(text: &str) -> usize
    ensures len { result ≡ document.byte_order_mark_len text.now }
    ensures boundary { IsCharBoundary text.now (document.byte_order_mark_len text.now) }
{
    match split_first(text) {
        Some(('\u{feff}', _)) => 3,
        _ => 0,
    }
}

/// Returns whether `#!` is the start of an attribute. `tail` is the text after it.
fn is_attribute(tail: &str) -> bool
    requires fits { Fits tail.now }
    ensures { result ≡ spec.is_attribute (tokens_of (part newest) tail.now) }
{
    for token in tokenize(tail, FrontmatterAllowed::No) {
        if !is_passed(token.kind) {
            return matches!(token.kind, TokenKind::OpenBracket);
        }
    }
    false
}

/// Returns whether a token of this kind can come between `#!` and the bracket of an attribute.
fn is_passed(kind: TokenKind) -> bool
    ensures { result ≡ spec.is_passed kind }
{
    match kind {
        TokenKind::Whitespace => true,
        TokenKind::LineComment { doc_style } | TokenKind::BlockComment { doc_style, .. } => {
            doc_style.is_none()
        }
        _ => false,
    }
}

/// Returns the length of the first line in bytes, without its line ending.
fn line_len(text: &str) -> usize
    ensures line { result ≡ spec.line_len text.now }
    ensures inside { result ≤ length text.now }
    ensures boundary { IsCharBoundary text.now result }
{
    let Some(newline) = text.find('\n') else {
        return text.len();
    };
    if 0 < newline && text.as_bytes()[newline - 1] == b'\r' {
        newline - 1
    } else {
        newline
    }
}
