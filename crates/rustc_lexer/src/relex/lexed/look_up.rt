//! Finds tokens of a lexed text by offset or index, and returns pieces.
ghost use Rattle.std.specs.Prelude.{[], ◌∷◌, ◌≡◌, ◌+◌, ◌-◌, ◌^◌, ◌<◌, ◌≤◌, ◌↔◌, IfSome, IsNone, IsSome, ℕ, drop};
ghost use Rattle.std.specs.Prelude.{length, take};
ghost use Rattle.rustc_lexer.specs.LexedText.{pieces_from, piece_model, start_in};
ghost use Rattle.rustc_lexer.specs.Offsets.{AreTouched, ContainsByte};
ghost use Rattle.rustc_lexer.specs.Tokens.{bound};
ghost use Rattle.rustc_lexer.specs.model.Checkpoints.{IsBoundFrom};

use crate::entry::stepper::Stepper;
use crate::head::Extent;
use crate::relex::boundary::{TokenStart, find_token};
use crate::relex::lexed::Lexed;
use crate::relex::pieces::{Piece, Pieces};
use crate::token::Token;
use std::iter::Iterator;

impl<S: Stepper, E: Extent> Lexed<S, E> {
    /// Returns an iterator over the pieces of the text, one for each token, in order. The first piece starts after a
    /// byte order mark and a shebang line, which are not pieces.
    pub fn pieces(&self) -> Pieces<'_>
        ensures pieces { result
            ≡ pieces_from self.now.text (start_in E.whole self.now.text) self.now.tokens }
        ensures number { length result ≡ length self.now.tokens }
    {
        let text = self.parts.text.as_str();
        let start = self.parts.head.tokens_start as u32;
        let end = text.len() as u32;
        Pieces {
            text,
            start,
            end,
            tokens: self.parts.tokens.as_slice(),
        }
    }

    /// Returns an iterator over the pieces of the tokens `from..to`, for example the tokens that an edit lexed. It
    /// reads few of the tokens before them.
    ///
    /// ```ignore
    /// // An editor paints the tokens that an edit changed.
    /// let counts = lexed.edit(start, stop, insert)?;
    /// for piece in lexed.pieces_by_index(counts.kept_front, counts.kept_front + counts.lexed) {
    ///     paint(piece.start, piece.token.kind, piece.text);
    /// }
    /// ```
    pub fn pieces_by_index(&self, from: usize, to: usize) -> Pieces<'_>
        requires from_le_to { from ≤ to }
        requires to_inside { to ≤ length self.now.tokens }
        ensures pieces { result
            ≡ take (to - from)
            (drop from (pieces_from self.now.text (start_in E.whole self.now.text)
            self.now.tokens)) }
        ensures number { length result ≡ to - from }
    {
        let first = TokenStart {
            index: 0,
            offset: self.parts.head.tokens_start,
        };
        let start = self.offset_of(from, first);
        let known = TokenStart {
            index: from,
            offset: start as usize,
        };
        let end = self.offset_of(to, known);
        let tokens = &self.parts.tokens.as_slice()[from..to];
        Pieces {
            text: self.parts.text.as_str(),
            start,
            end,
            tokens,
        }
    }

    /// Returns an iterator over the pieces of the tokens that contain a byte of `start..stop`, for example of the
    /// visible lines. The range may end anywhere, even after the end of the text. An empty range contains no pieces.
    pub fn pieces_in_bytes(&self, start: usize, stop: usize) -> Pieces<'_>
        ensures { (from to : ℕ)
            × AreTouched (start_in E.whole self.now.text) self.now.tokens start stop from to
            × (result
            ≡ take (to - from) (drop from
            (pieces_from self.now.text (start_in E.whole self.now.text) self.now.tokens))) }
    {
        let (from, to) = self.index_range(start, stop);
        self.pieces_by_index(from, to)
    }

    /// Returns the last boundary known without a search that has at most `number` tokens before it: `known`, or a
    /// remembered one. Its offset is in bytes from the start of the text.
    fn bound_before(&self, number: usize, known: TokenStart) -> TokenStart
        requires inside { number ≤ length self.now.tokens }
        requires before { known.index ≤ number }
        requires known { IsBoundFrom (start_in E.whole self.now.text) self.now.tokens known }
        ensures number { result.index ≤ number }
        ensures offset { result.offset
            ≡ start_in E.whole self.now.text + bound self.now.tokens result.index }
    {
        let count = self.parts.head.count();
        if number < count {
            return known;
        }
        let near = self.parts.checkpoints.before_number(number - count);
        if count + near.index < known.index {
            return known;
        }
        TokenStart {
            index: count + near.index,
            offset: self.parts.head.body + near.offset,
        }
    }

    /// Returns the offset of token boundary `number`, in bytes from the start of the text. `known` is a boundary with
    /// at most `number` tokens before it.
    fn offset_of(&self, number: usize, known: TokenStart) -> u32
        requires inside { number ≤ length self.now.tokens }
        requires before { known.index ≤ number }
        requires known { IsBoundFrom (start_in E.whole self.now.text) self.now.tokens known }
        ensures { result ≡ start_in E.whole self.now.text + bound self.now.tokens number }
    {
        let tokens = self.parts.tokens.as_slice();
        let near = self.bound_before(number, known);
        let start = near.offset as u32;
        end_from(start, &tokens[near.index..number])
    }

    /// Returns a boundary near the offset that is known without a search: the nearest remembered one, or the first one
    /// if the offset is in the head.
    fn bound_near(&self, offset: usize) -> TokenStart
        ensures { IsBoundFrom (start_in E.whole self.now.text) self.now.tokens result }
    {
        if offset < self.parts.head.body {
            return TokenStart {
                index: 0,
                offset: self.parts.head.tokens_start,
            };
        }
        let near = self
            .parts
            .checkpoints
            .nearest(offset - self.parts.head.body);
        TokenStart {
            index: self.parts.head.count() + near.index,
            offset: self.parts.head.body + near.offset,
        }
    }

    /// Returns the token that contains the byte at `offset`: its index and its start. Returns `None` in a byte order
    /// mark and a shebang line, which are not tokens, and at and after the end of the text. It reads few of the tokens.
    pub fn token_start_at(&self, offset: usize) -> Option<TokenStart>
        ensures token { IfSome result
            (ContainsByte (start_in E.whole self.now.text) self.now.tokens offset) }
        ensures some { IsSome result ↔ (start_in E.whole self.now.text ≤ offset)
            × (offset < length self.now.text) }
    {
        let near = self.bound_near(offset);
        find_token(self.parts.tokens.as_slice(), near, offset)
    }

    /// Returns the piece that contains the byte at `offset`. Returns `None` in a byte order mark and a shebang line,
    /// and at and after the end of the text. It reads few of the tokens.
    pub fn piece_at(&self, offset: usize) -> Option<Piece<'_>>
        ensures piece { IfSome result (λ piece. (at : TokenStart)
            × ContainsByte (start_in E.whole self.now.text) self.now.tokens offset at
            × (take 1 (drop at.index
            (pieces_from self.now.text (start_in E.whole self.now.text) self.now.tokens))
            ≡ piece_model piece ∷ [])) }
        ensures some { IsSome result ↔ (start_in E.whole self.now.text ≤ offset)
            × (offset < length self.now.text) }
    {
        let at = self.token_start_at(offset)?;
        let text = self.parts.text.as_str();
        let tokens = &self.parts.tokens.as_slice()[at.index..];
        let start = at.offset as u32;
        let end = text.len() as u32;
        let mut pieces = Pieces {
            text,
            start,
            end,
            tokens,
        };
        pieces.next()
    }

    /// Returns how many tokens end at or before the offset.
    fn count_ended_at(&self, offset: usize) -> usize
        ensures inside { result ≤ length self.now.tokens }
        ensures ended { (k : ℕ) → k < result
            → start_in E.whole self.now.text + bound self.now.tokens (k + 1) ≤ offset }
        ensures others { (k : ℕ) → result ≤ k → k < length self.now.tokens
            → offset < start_in E.whole self.now.text + bound self.now.tokens (k + 1) }
    {
        if offset < self.parts.head.tokens_start {
            return 0;
        }
        match self.token_start_at(offset) {
            Some(at) => at.index,
            None => self.parts.tokens.len(),
        }
    }

    /// Returns how many tokens start before the offset.
    fn count_started_before(&self, offset: usize) -> usize
        ensures inside { result ≤ length self.now.tokens }
        ensures begun { (k : ℕ) → k < result
            → start_in E.whole self.now.text + bound self.now.tokens k < offset }
        ensures others { (k : ℕ) → result ≤ k → k < length self.now.tokens
            → offset ≤ start_in E.whole self.now.text + bound self.now.tokens k }
    {
        if offset <= self.parts.head.tokens_start {
            return 0;
        }
        match self.token_start_at(offset - 1) {
            Some(at) => at.index + 1,
            None => self.parts.tokens.len(),
        }
    }

    /// Returns the range of the tokens that contain a byte of `start..stop`: the index of the first one, and the index
    /// after the last one.
    fn index_range(&self, start: usize, stop: usize) -> (usize, usize)
        ensures { AreTouched (start_in E.whole self.now.text) self.now.tokens start stop result.0
            result.1 }
    {
        if start >= stop {
            return (0, 0);
        }
        (self.count_ended_at(start), self.count_started_before(stop))
    }
}

/// Returns the end of the last token. The first one starts at `start`.
fn end_from(start: u32, tokens: &[Token]) -> u32
    requires { start + bound tokens.now (length tokens.now) < 2 ^ 32 }
    ensures { result ≡ start + bound tokens.now (length tokens.now) }
{
    let mut end = start;
    for token in tokens {
        end += token.len;
    }
    end
}
