//! Comments.
ghost use Rattle.std.specs.Prelude.{◌≡◌};
ghost use Rattle.std.specs.Str.{chars};
ghost use Rattle.rustc_lexer.specs.model.Comment as spec;
ghost use Rattle.rustc_lexer.specs.model.Scan.{scanned};

use crate::lexemes::block_comment::block_comment;
use crate::scan::{begins_with, eat_until, strip};
use crate::token::{DocStyle, TokenKind};

/// Lexes a token that starts with a slash. Returns its kind, and the text after it. `rest` is the text after the slash.
#[inline(always)]
pub(crate) fn slash(rest: &str) -> (TokenKind, &str)
    ensures { (result.0, result.1.now) ≡ scanned spec.slash rest.now }
{
    if let Some(body) = strip(rest, b'/') {
        line_comment(body)
    } else if let Some(body) = strip(rest, b'*') {
        block_comment(body)
    } else {
        (TokenKind::Slash, rest)
    }
}

/// Lexes a line comment. Returns its kind, and the text after it. `body` is the text after its `//`.
#[inline(always)]
fn line_comment(body: &str) -> (TokenKind, &str)
    ensures { (result.0, result.1.now) ≡ scanned spec.line_comment body.now }
{
    let doc_style = line_doc_style(body);
    let rest = eat_until(body, b'\n');
    (TokenKind::LineComment { doc_style }, rest)
}

/// Returns the doc style of the line comment with this body.
#[inline(always)]
#[tactic(auto, using(crate::proofs::lemmas::tokens::ByteSearch::begins_two, std::proofs::lemmas::Grind::common_steps))]
fn line_doc_style(body: &str) -> Option<DocStyle>
    ensures { result ≡ spec.line_doc_style (chars body.now) }
{
    if begins_with(body, b'!') {
        return Some(DocStyle::Inner);
    }
    let past_slash = strip(body, b'/')?;
    if begins_with(past_slash, b'/') {
        None
    } else {
        Some(DocStyle::Outer)
    }
}
