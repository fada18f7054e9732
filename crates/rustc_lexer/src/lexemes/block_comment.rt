//! Block comments, which nest.
ghost use Rattle.std.specs.Prelude.{◌≡◌};
ghost use Rattle.std.specs.Str.{chars};
ghost use Rattle.rustc_lexer.specs.model.BlockComment as spec;
ghost use Rattle.rustc_lexer.specs.model.Scan.{or_all, scanned};

use crate::lexemes::body::BodyEnd;
use crate::scan::{begins_with, eat_until_either, split_first, strip};
use crate::token::{DocStyle, TokenKind};

/// Lexes a block comment. Returns its kind, and the text after it. `body` is the text after its `/*`.
#[inline(always)]
#[tactic(auto, using(crate::proofs::lemmas::tokens::BlockCommentLoop::comment, std::proofs::lemmas::Grind::common_steps))]
pub(crate) fn block_comment(body: &str) -> (TokenKind, &str)
    ensures { (result.0, result.1.now) ≡ scanned spec.block_comment body.now }
{
    let doc_style = block_doc_style(body);
    let BodyEnd { terminated, rest } = past_comment(body);
    (
        TokenKind::BlockComment {
            doc_style,
            terminated,
        },
        rest,
    )
}

/// Returns the doc style of the block comment with this body.
#[inline(always)]
#[tactic(auto, using(crate::proofs::lemmas::tokens::ByteSearch::begins_two, std::proofs::lemmas::Grind::common_steps))]
fn block_doc_style(body: &str) -> Option<DocStyle>
    ensures { result ≡ spec.block_doc_style (chars body.now) }
{
    if begins_with(body, b'!') {
        return Some(DocStyle::Inner);
    }
    let past_star = strip(body, b'*')?;
    if begins_with(past_star, b'*') || begins_with(past_star, b'/') {
        None
    } else {
        Some(DocStyle::Outer)
    }
}

/// Returns the end of the comment. `body` is the text after its `/*`. An unterminated comment extends to the end of the
/// text.
fn past_comment(body: &str) -> BodyEnd<'_>
    ensures { (result.terminated, result.rest.now)
        ≡ scanned (or_all spec.comment_end) body.now }
{
    let mut depth = 1usize;
    let mut rest = body;
    'comment: loop {
        let stop = eat_until_either(rest, b'*', b'/');
        let Some((c, tail)) = split_first(stop) else {
            return BodyEnd {
                terminated: false,
                rest: stop,
            };
        };
        if c == '*' {
            if let Some(past_closing) = strip(tail, b'/') {
                depth -= 1;
                if depth == 0 {
                    return BodyEnd {
                        terminated: true,
                        rest: past_closing,
                    };
                }
                rest = past_closing;
            } else {
                rest = tail;
            }
        } else if let Some(past_opening) = strip(tail, b'*') {
            depth += 1;
            rest = past_opening;
        } else {
            rest = tail;
        }
    }
}
