//! Skips the comments before the code of a text.
ghost use Rattle.std.specs.Prelude.{◌≡◌};
ghost use Rattle.rustc_lexer.specs.Classes.{Fits};
ghost use Rattle.rustc_lexer.specs.LanguageText.{part, newest};
ghost use Rattle.rustc_lexer.specs.Tokens.{tokens_of};
ghost use Rattle.examples.specs.Comments.{is_skipped, past_comments};

use rustc_lexer::{Cursor, FrontmatterAllowed, TokenKind};

/// Returns the text from its first token that is neither whitespace nor a comment.
pub fn skip_comments(text: &str) -> &str
    requires fits { Fits text.now }
    ensures { result.now ≡ past_comments text.now (tokens_of (part newest) text.now) }
{
    let mut cursor = Cursor::new(text, FrontmatterAllowed::No);
    loop {
        let rest = cursor.as_str();
        let token = cursor.advance_token();
        if !is_skipped(token.kind) {
            return rest;
        }
    }
}

/// Returns whether a token is whitespace or a comment.
fn is_skipped(kind: TokenKind) -> bool
    ensures { result ≡ is_skipped kind }
{
    matches!(
        kind,
        TokenKind::Whitespace | TokenKind::LineComment { .. } | TokenKind::BlockComment { .. }
    )
}
