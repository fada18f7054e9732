//! The pieces of a lexed text.
ghost use Rattle.std.specs.Prelude.{◌≡◌, IfSome, Some, length};
ghost use Rattle.std.specs.Iterator.{UpTo, at_most};
ghost use Rattle.std.specs.Iterator.SizeHint.{IsWithinCount};
ghost use Rattle.rustc_lexer.specs.LexedText.{YieldsPiece, YieldsPieceBack};

use crate::token::Token;
use std::iter::{DoubleEndedIterator, ExactSizeIterator, Iterator};
use std::marker::Model;

/// A token with its offset and text.
#[derive(Clone, Copy, Debug, PartialEq, Eq)]
pub struct Piece<'a> {
    /// The start of the token, in bytes from the start of the text.
    pub start: u32,
    /// The token.
    pub token: Token,
    /// The token's text.
    pub text: &'a str,
}

/// An iterator over the pieces of a text. It can also be iterated from the back.
///
/// It is returned by `pieces`, `pieces_by_index` and `pieces_in_bytes` of a [`LexedText`](crate::LexedText) or a
/// [`LexedDocument`](crate::LexedDocument). Each piece starts where the piece before it ends.
#[derive(Drop)]
pub struct Pieces<'a> {
    pub(crate) text: &'a str,
    pub(crate) start: u32,
    pub(crate) end: u32,
    pub(crate) tokens: &'a [Token],
}

impl<'a> Model for Pieces<'a> {
    ghost use Rattle.std.specs.Prelude.{List};
    ghost use Rattle.rustc_lexer.specs.LexedText.{PieceModel, pieces_from};
    ghost use Rattle.rustc_lexer.specs.model.Pieces.{AreCut};

    ghost Value = { List PieceModel };

    ghost view = { λ p. pieces_from p.text.now p.start p.tokens.now };

    ghost invariant = { λ p. AreCut p.text.now p.start p.end p.tokens.now };
}

impl<'a> Iterator for Pieces<'a> {
    type Item = Piece<'a>;

    ghost next_gives = { YieldsPiece };

    ghost remaining = { λ s. at_most (length s) };

    /// Returns the next piece, or `None` if no piece is left. After `None` it always returns `None`.
    fn next(&mut self) -> Option<Piece<'a>> {
        let (token, tokens) = self.tokens.split_first()?;
        let end = self.start + token.len;
        let piece = Piece {
            start: self.start,
            token: *token,
            text: &self.text[self.start as usize..end as usize],
        };
        self.start = end;
        self.tokens = tokens;
        Some(piece)
    }

    /// Returns the number of pieces that are left, as lower and as upper bound.
    #[tactic(auto, using(crate::proofs::lemmas::edits::Pieces::as_many_left, std::proofs::lemmas::Grind::common_steps))]
    fn size_hint(&self) -> (usize, Option<usize>)
        ensures lower { IsWithinCount result.0 (at_most (length self.now)) }
        ensures upper { IfSome result.1 (UpTo (at_most (length self.now))) }
        ensures exact { result ≡ (length self.now, Some (length self.now)) }
    {
        let left = self.tokens.len();
        (left, Some(left))
    }
}

impl<'a> DoubleEndedIterator for Pieces<'a> {
    ghost next_back_gives = { YieldsPieceBack };

    /// Returns the last piece that is left, or `None` if no piece is left. After `None` it always returns `None`.
    fn next_back(&mut self) -> Option<Piece<'a>> {
        let (token, tokens) = self.tokens.split_last()?;
        let start = self.end - token.len;
        let piece = Piece {
            start,
            token: *token,
            text: &self.text[start as usize..self.end as usize],
        };
        self.end = start;
        self.tokens = tokens;
        Some(piece)
    }
}

impl<'a> ExactSizeIterator for Pieces<'a> {
    /// Returns the number of pieces that are left.
    #[tactic(auto, using(crate::proofs::lemmas::edits::Pieces::as_many_left, std::proofs::lemmas::Grind::common_steps))]
    fn len(&self) -> usize {
        self.tokens.len()
    }
}
