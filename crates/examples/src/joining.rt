//! Joins pieces so that they lex back to the same tokens.
ghost use Rattle.std.specs.Prelude.{IfOk, map};
ghost use Rattle.std.specs.String.{string_bytes};
ghost use Rattle.examples.specs.Joining.{AreJoined, AreTokensOf};
ghost use Rattle.rustc_lexer.specs.LanguageText.{part};
ghost use Rattle.rustc_lexer.specs.Tokens.{tokens_of};

use rustc_lexer::{Edition, JoinError, JoinedText};
use std::alloc::Global;

/// Joins the pieces, or returns an error if a piece cannot follow the text before it. Apart from separators, the text
/// has the tokens of the pieces, in order.
pub fn join(alloc: Global, edition: Edition, pieces: &[&str]) -> Result<String, JoinError>
    ensures tokens { IfOk result
        (λ text. AreTokensOf edition (map (λ p. p.now) pieces.now)
        (tokens_of (part edition) (string_bytes text))) }
    ensures joined { IfOk result
        (λ text. AreJoined edition (map (λ p. p.now) pieces.now) (string_bytes text)) }
{
    let mut joined = JoinedText::new(alloc, edition);
    for piece in pieces {
        joined.push(piece)?;
    }
    Ok(joined.into_string())
}
