//! Counts the tokens of a file.
ghost use Rattle.std.specs.Prelude.{◌≡◌, length};
ghost use Rattle.rustc_lexer.specs.Classes.{Fits};
ghost use Rattle.rustc_lexer.specs.LanguageText.{newest, source};
ghost use Rattle.rustc_lexer.specs.Tokens.{tokens_of};

use rustc_lexer::{FrontmatterAllowed, tokenize};

/// Returns the number of tokens of a file.
pub fn count_tokens(text: &str) -> usize
    requires fits { Fits text.now }
    ensures { result ≡ length (tokens_of (source newest) text.now) }
{
    let mut count = 0;
    for _ in tokenize(text, FrontmatterAllowed::Yes) {
        count += 1;
    }
    count
}
