//! The tokens of a whole file.
ghost use Rattle.std.specs.Prelude.{◌≡◌, All, drop};
ghost use Rattle.std.specs.Str.{IsCharBoundary};
ghost use Rattle.rustc_lexer.specs.Classes.{Fits};
ghost use Rattle.rustc_lexer.specs.Document.{document_tokens, tokens_start};
ghost use Rattle.rustc_lexer.specs.LanguageText.{source};
ghost use Rattle.rustc_lexer.specs.Tokens.{HasSuffix, HaveTexts, Partitions, tokens_left};

use crate::edition::Edition;
use crate::entry::{Tokens, tokenize_as};
use crate::shebang::tokens_start;
use crate::token::FrontmatterAllowed;

/// Returns an iterator over the tokens of a whole file, lexed in the given edition. The text may have at most
/// `u32::MAX` bytes.
///
/// A file may start with a byte order mark (U+FEFF), then a shebang line, then a frontmatter. The mark and the shebang
/// line are not tokens: the first token starts at byte `text.len() - tokens.as_str().len()`, before the first call of
/// `next`. For a fragment, or to lex a shebang line as code, call [`tokenize_as`].
///
/// ```ignore
/// let tokens = tokenize_document(text, Edition::E2024);
/// let mut start = text.len() - tokens.as_str().len(); // 9 for "#!/bin/sh\nfn", 0 without such a line
/// for token in tokens {
///     let end = start + token.len as usize;
///     show(token.kind, &text[start..end]);
///     start = end;
/// }
/// ```
pub fn tokenize_document<'a>(text: &'a str, edition: Edition) -> Tokens<'a>
    requires fits { Fits text.now }
    ensures state { result
        ≡ record {
          pending = 0;
          rest = drop (tokens_start text.now) text.now;
          mode = source edition;
        } }
    ensures tokens { tokens_left result ≡ document_tokens edition text.now }
    ensures boundary { IsCharBoundary text.now (tokens_start text.now) }
    ensures partitions { Partitions (drop (tokens_start text.now) text.now)
        (document_tokens edition text.now) }
    ensures suffixes { All HasSuffix (document_tokens edition text.now) }
    ensures texts { HaveTexts (drop (tokens_start text.now) text.now)
        (document_tokens edition text.now) }
{
    tokenize_as(
        &text[tokens_start(text)..],
        FrontmatterAllowed::Yes,
        edition,
    )
}
