//! Lexes many tokens at once into a buffer.
ghost use Rattle.std.specs.Prelude.{◌≡◌, ◌++◌, drop, length, map, min, take};
ghost use Rattle.rustc_lexer.specs.{Token};
ghost use Rattle.rustc_lexer.specs.Tokens.{state_past, tokens_left};

use crate::entry::Tokens;
use crate::token::Token;
use std::iter::Iterator;

/// A type that a token can be converted to as it is written into a buffer.
///
/// For example, to keep only the kinds:
///
/// ```
/// use rustc_lexer::{FromToken, FrontmatterAllowed, Token, TokenKind, tokenize};
///
/// #[derive(Clone, Copy, Debug, PartialEq)]
/// struct Kind(TokenKind);
///
/// impl FromToken for Kind {
///     fn from_token(token: Token) -> Kind {
///         Kind(token.kind)
///     }
/// }
///
/// let mut kinds = [Kind(TokenKind::Eof); 4];
/// assert_eq!(tokenize("a+b", FrontmatterAllowed::No).fill(&mut kinds), 3);
/// assert_eq!(kinds[1], Kind(TokenKind::Plus));
/// ```
pub trait FromToken: Copy {
    /// The value that each token is converted to.
    ghost written: { Token → Self };

    /// Converts a token.
    fn from_token(token: Token) -> Self
        ensures { result ≡ written token };
}

/// A token is written as it is.
impl FromToken for Token {
    ghost written = { λ token. token };

    #[inline(always)]
    fn from_token(token: Token) -> Token {
        token
    }
}

impl<'a> Tokens<'a> {
    /// Writes the next tokens into the buffer until it is full or no token is left, and returns how many were written.
    ///
    /// These are the tokens that the same number of calls of `next` would return. Fewer tokens than the buffer's length
    /// are written only if no token is left.
    ///
    /// ```ignore
    /// let mut buffer = [Token { kind: TokenKind::Eof, len: 0 }; 256];
    /// let mut tokens = tokenize(text, FrontmatterAllowed::No);
    /// while !tokens.as_str().is_empty() {
    ///     let count = tokens.fill(&mut buffer);
    ///     for token in &buffer[..count] {
    ///         spaces += matches!(token.kind, TokenKind::Whitespace) as usize;
    ///     }
    /// }
    /// ```
    #[tactic(auto, using(crate::proofs::lemmas::tokens::Buffers::fill_lemmas, std::proofs::lemmas::Grind::common_steps))]
    pub fn fill<R: FromToken>(&mut self, buffer: &mut [R]) -> usize
        ensures count { result ≡ min (length buffer.old) (length (tokens_left self.old)) }
        ensures tokens { buffer.new
            ≡ map R.written (take result (tokens_left self.old)) ++ drop result buffer.old }
        ensures state { self.new ≡ state_past result self.old }
    {
        // The loop uses a copy, which stays in registers.
        let mut tokens = self.copy_unclassified();
        tokens.classify_next();
        let mut count = 0;
        'places: while count < buffer.len() {
            let Some(token) = tokens.next_outlined() else {
                break;
            };
            buffer[count] = R::from_token(token);
            count += 1;
        }
        *self = tokens;
        count
    }
}
