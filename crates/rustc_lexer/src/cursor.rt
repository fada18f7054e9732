//! A cursor, which returns the tokens of a text one by one.
ghost use Rattle.std.specs.Prelude.{◌≡◌, [], ◌≢◌, ◌+◌, ◌^◌, ◌<◌, slice_index};
ghost use Rattle.std.specs.Str.{chars};
ghost use Rattle.rustc_lexer.specs.Classes.{Fits};
ghost use Rattle.rustc_lexer.specs.Tokens.{TakesFirst, tokens_left};
ghost use Rattle.rustc_lexer.specs.LanguageText.{mode_edition, mode_in, newest};
ghost use Rattle.rustc_lexer.specs.Answers.{advance};
ghost use Rattle.rustc_lexer.specs.State.{token_past, HasSuffixWithin};

use crate::entry::{Tokens, tokenize};
use crate::scan;
use crate::token::{FrontmatterAllowed, Token, TokenKind};
use std::iter::Iterator;
use std::marker::Model;

mod guarded;

/// A cursor over a text, which returns the tokens one by one.
///
/// Its state is the remaining text, the number of bytes consumed since the last token, and whether a frontmatter may
/// come next. Bytes consumed since the last token are *pending*: they are part of the next token.
///
/// To find a token, call [`advance_token`](Cursor::advance_token) in a loop:
///
/// ```ignore
/// // It looks for the first one that is not a comment.
/// let mut cursor = Cursor::new(text, FrontmatterAllowed::No);
/// loop {
///     let rest = cursor.as_str();
///     let token = cursor.advance_token();
///     if !is_skipped(token.kind) {
///         return rest;
///     }
/// }
/// ```
#[derive(Drop)]
pub struct Cursor<'a> {
    tokens: Tokens<'a>,
    /// The number of bytes consumed since the last token.
    pending: u32,
}

impl<'a> Model for Cursor<'a> {
    ghost use Rattle.rustc_lexer.specs.State.{State};
    ghost use Rattle.rustc_lexer.specs.model.Taking.{IsCursor};

    ghost Value = { State };

    ghost view = { λ c. record {
      pending = c.pending;
      rest = c.tokens.rest;
      mode = c.tokens.mode;
    } };

    ghost invariant = { λ c. IsCursor c.pending c.tokens };
}

impl<'a> Cursor<'a> {
    /// Creates a cursor at the start of a text, which may have at most `u32::MAX` bytes.
    #[inline]
    #[tactic(auto, using(crate::proofs::lemmas::tokens::Advance::at_start, std::proofs::lemmas::Grind::common_steps))]
    pub fn new(input: &'a str, frontmatter_allowed: FrontmatterAllowed) -> Cursor<'a>
        requires fits { Fits input.now }
        ensures { result
            ≡ record { pending = 0; rest = input.now; mode = mode_in frontmatter_allowed newest } }
    {
        Cursor {
            tokens: tokenize(input, frontmatter_allowed),
            pending: 0,
        }
    }

    /// Returns the remaining text.
    #[inline(always)]
    pub fn as_str(&self) -> &'a str
        ensures rest { result.now ≡ self.now.rest }
        ensures newest { mode_edition self.now.mode ≡ newest }
        ensures fits { Fits result.now }
    {
        self.tokens.as_str()
    }

    /// Returns the next character without consuming it, or U+0000 at the end of the text.
    ///
    /// If the next character itself is U+0000, the result is the same, but [`as_str`](Cursor::as_str) is not empty.
    #[inline]
    pub fn first(&self) -> char
        ensures { result ≡ slice_index (chars self.now.rest) 0 }
    {
        scan::first(self.as_str())
    }

    /// Returns the character after the next two without consuming any, or U+0000 if there is none.
    #[inline]
    pub fn third(&self) -> char
        ensures { result ≡ slice_index (chars self.now.rest) 2 }
    {
        scan::third(self.as_str())
    }

    /// Consumes and returns the next token. At the end of the text, returns `Eof`, of length 0, and changes nothing.
    ///
    /// No other token is `Eof`. Every other token is longer than the pending bytes and ends on a character boundary.
    ///
    /// The pending bytes count in the length of the token and in the offset of its suffix. Afterwards no bytes are
    /// pending. After a token that is not whitespace, no frontmatter is allowed.
    #[inline(always)]
    pub fn advance_token(&mut self) -> Token
        ensures token { result ≡ (advance self.old).0 }
        ensures state { self.new ≡ (advance self.old).1 }
        ensures end { result.kind ≡ TokenKind.Eof → (tokens_left self.old ≡ [])
            × (self.old.rest ≡ []) × (result.len ≡ 0) × (self.new ≡ self.old) }
        ensures past { result.kind ≢ TokenKind.Eof → TakesFirst self.old result self.new }
    {
        let Some(token) = self.tokens.next() else {
            return Token {
                kind: TokenKind::Eof,
                len: 0,
            };
        };
        if self.pending == 0 {
            return token;
        }
        let pending = self.pending;
        self.pending = 0;
        with_pending(token, pending)
    }
}

/// Adds the pending bytes to the start of the token.
#[inline(always)]
fn with_pending(token: Token, pending: u32) -> Token
    requires suffix { HasSuffixWithin token }
    requires fits { pending + token.len < 2 ^ 32 }
    ensures { result ≡ token_past pending token }
{
    let kind = match token.kind {
        TokenKind::Literal { kind, suffix_start } => TokenKind::Literal {
            kind,
            suffix_start: pending + suffix_start,
        },
        kind => kind,
    };
    Token {
        kind,
        len: pending + token.len,
    }
}
