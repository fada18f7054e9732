//! Re-lexes only the part of a text that an edit changed.
ghost use Rattle.std.specs.Prelude.{◌≡◌, ◌+◌, ◌-◌, ◌^◌, ◌<◌, ◌≤◌, ◌∷◌, ◌↔◌, IsTrue, IfSome, None, List, MatchOption};
ghost use Rattle.std.specs.Prelude.{IsCharBoundary, drop, false, length, map, ℕ, true};
ghost use Rattle.rustc_lexer.specs.declared.relex.change.Change.{Change};
ghost use Rattle.rustc_lexer.specs.{Token};
ghost use Rattle.rustc_lexer.specs.Offsets.{IsBound};
ghost use Rattle.rustc_lexer.specs.Edits.{IsRelexed, fragment_by};
ghost use Rattle.rustc_lexer.specs.Classes.{Fits};
ghost use Rattle.rustc_lexer.specs.Tokens.{tokens_by};
ghost use Rattle.rustc_lexer.specs.Relexer.{Advances, CanContinue, Fills, IsChange, IsMadeOf, IsRelexOf, IsUnderWay};
ghost use Rattle.rustc_lexer.specs.Relexer.{IsWhole, is_done, known};
ghost use Rattle.rustc_lexer.specs.model.Relexer.{IsClear, IsNext};
ghost use Rattle.rustc_lexer.specs.Locality.{IsGrammar};

use crate::entry::fill::FromToken;
use crate::entry::stepper::Stepper;
use crate::relex::boundary::{TextLen, TokenStart, follow, kept_front};
use crate::relex::change::Change;
use crate::relex::counts::Relexed;
use crate::token::Token;
use std::marker::Model;

/// The maximum offset of a token boundary. No text is longer, even if a `usize` has 32 bits.
const MOST: usize = usize::MAX / 2;

/// The progress of [`Relexer`]: the kept front, the number of tokens that were lexed, and the old tokens ahead.
///
/// [`Relexer::state`] returns it, and [`Relexer::resume`] continues from it.
#[derive(Clone, Copy, Debug, PartialEq, Eq)]
pub struct RelexState {
    /// The end of the kept front: the number of old tokens in it, and the offset at which it ends.
    pub front: TokenStart,
    /// The number of tokens lexed so far.
    pub lexed: usize,
    /// A boundary of the old tokens. Once lexing meets it, the tokens after it are kept.
    pub back: TokenStart,
    /// The end of the last token that was lexed, in bytes from the start of the current text.
    pub at: usize,
    /// Whether `at` is the boundary `back` of the old tokens, moved by the edit.
    pub met: bool,
}

impl RelexState {
    /// Returns whether re-lexing this text, with `old_count` old tokens, can continue from this state. Every state that
    /// `begin` and `next` leave is valid.
    fn can_continue(&self, text: &str, old_count: usize) -> bool
        ensures { IsTrue result ↔ CanContinue text.now old_count self.now }
    {
        text.is_char_boundary(self.at)
            && self.back.index <= old_count
            && self.front.index <= self.back.index
            && self.back.offset <= MOST
            && self.lexed <= self.at
    }

    /// Returns the counts of the edit, once lexing is done. There are `old_count` old tokens.
    pub(crate) fn counts(&self, old_count: usize) -> Relexed
        requires { self.now.back.index ≤ old_count }
        ensures { result
            ≡ record {
              kept_front = self.now.front.index;
              lexed = self.now.lexed;
              kept_back = old_count - self.now.back.index;
            } }
    {
        Relexed {
            kept_front: self.front.index,
            lexed: self.lexed,
            kept_back: old_count - self.back.index,
        }
    }
}

/// Re-lexes the part of a text that an edit changed, with old tokens in a list of your own.
///
/// It reads only the lengths of the old tokens. If these are the tokens of the old text, and the change resulted in the
/// current text, then the tokens and the counts are exact. Any other tokens are safe, but then the result has no
/// meaning.
///
/// ```
/// use rustc_lexer::incremental::{Change, Relexer};
/// use rustc_lexer::{FrontmatterAllowed, Steps, Token, TokenStart, tokenize};
///
/// let (old, new) = ("let ab = cd;", "let abc = cd;");
/// let mut tokens: Vec<Token> = tokenize(old, FrontmatterAllowed::No).collect();
/// // A `c` was inserted at 6.
/// let change = Change { start: 6, old_end: 6, new_end: 7 };
///
/// let mut steps = Steps::new();
/// let mut relex = Relexer::begin(new, &tokens, change, TokenStart::default()).unwrap();
/// let mut lexed = Vec::new();
/// while let Some(token) = relex.next(&mut steps) {
///     lexed.push(token);
/// }
/// let counts = relex.counts();
/// let back = tokens.len() - counts.kept_back;
/// tokens.splice(counts.kept_front..back, lexed);
/// assert!(tokenize(new, FrontmatterAllowed::No).eq(tokens));
/// assert_eq!((counts.kept_front, counts.lexed, counts.kept_back), (2, 1, 5));
/// ```
#[derive(Drop)]
pub struct Relexer<'a, T: TextLen> {
    text: &'a str,
    old_tokens: &'a [T],
    change: Change,
    at: RelexState,
}

impl<'a, T: TextLen> Model for Relexer<'a, T> {
    ghost use Rattle.std.specs.Prelude.{length, map};
    ghost use Rattle.rustc_lexer.specs.Classes.{IsText};
    ghost use Rattle.rustc_lexer.specs.Relexer.{CanContinue, IsChange, RelexerModel};

    ghost Value = { RelexerModel };

    ghost view = { λ r. record {
      text = r.text.now;
      lengths = map T.bytes r.old_tokens.now;
      change = r.change;
      at = r.at;
    } };

    ghost invariant = { λ r. IsText r.text.now × IsChange r.text.now r.change
        × CanContinue r.text.now (length r.old_tokens.now) r.at };
}

impl<'a, T: TextLen> Relexer<'a, T> {
    /// Starts re-lexing: finds the tokens that are kept at the front. Returns `None` if the text has more than
    /// `u32::MAX` bytes or [`Change::is_valid_for`] is false.
    ///
    /// The search starts at `near`, which can be any boundary of the old tokens.
    pub fn begin(
        text: &'a str,
        old_tokens: &'a [T],
        change: Change,
        near: TokenStart,
    ) -> Option<Relexer<'a, T>>
        ensures none { result ≡ None ↔ ¬ (Fits text.now × IsChange text.now change) }
        ensures edited { IfSome result (λ r. (r.text ≡ text.now)
            × (r.lengths ≡ map T.bytes old_tokens.now) × (r.change ≡ change)) }
        ensures lexed { IfSome result (λ r. r.at.lexed ≡ 0) }
        ensures under_way { IfSome result (λ r. (first : List ℕ → Token) (before insert : List ℕ)
            → IsGrammar first → IsMadeOf first before (map T.bytes old_tokens.now) change insert text.now
            → IsBound (tokens_by first before) near
            → IsUnderWay first before change text.now r.at) }
    {
        if text.len() > u32::MAX as usize || !change.is_valid_for(text) {
            return None;
        }
        Some(Relexer::begin_valid(text, old_tokens, change, near))
    }

    /// Starts re-lexing, like [`begin`](Relexer::begin). The change must be valid.
    pub(crate) fn begin_valid(
        text: &'a str,
        old_tokens: &'a [T],
        change: Change,
        near: TokenStart,
    ) -> Relexer<'a, T>
        requires fits { Fits text.now }
        requires change { IsChange text.now change }
        ensures edited { (result.text ≡ text.now)
            × (result.lengths ≡ map T.bytes old_tokens.now) × (result.change ≡ change) }
        ensures lexed { result.at.lexed ≡ 0 }
        ensures under_way { (first : List ℕ → Token) (before insert : List ℕ) → IsGrammar first
            → IsMadeOf first before (map T.bytes old_tokens.now) change insert text.now
            → IsBound (tokens_by first before) near
            → IsUnderWay first before change text.now result.at }
    {
        let front = kept_front(text, old_tokens, change.start, near);
        let to = follow(old_tokens, front, front.offset, change, text.len());
        let at = RelexState {
            front,
            lexed: 0,
            back: to.at,
            at: front.offset,
            met: to.met,
        };
        Relexer {
            text,
            old_tokens,
            change,
            at,
        }
    }

    /// Continues from a state that [`state`](Relexer::state) returned, with the same text, old tokens and change.
    /// Returns `None` if no call can have left such a state.
    pub fn resume(
        text: &'a str,
        old_tokens: &'a [T],
        change: Change,
        state: RelexState,
    ) -> Option<Relexer<'a, T>>
        ensures none { result ≡ None ↔ ¬ (Fits text.now × IsChange text.now change
            × CanContinue text.now (length old_tokens.now) state) }
        ensures some { IfSome result (λ r. r ≡ record {
          text = text.now;
          lengths = map T.bytes old_tokens.now;
          change = change;
          at = state;
        }) }
    {
        if text.len() > u32::MAX as usize
            || !change.is_valid_for(text)
            || !state.can_continue(text, old_tokens.len())
        {
            return None;
        }
        Some(Relexer {
            text,
            old_tokens,
            change,
            at: state,
        })
    }

    /// Returns the progress so far.
    pub fn state(&self) -> RelexState
        ensures state { result ≡ self.now.at }
        ensures can_continue { CanContinue self.now.text (length self.now.lengths) self.now.at }
    {
        self.at
    }

    /// Returns whether lexing has met the old tokens, or no text is left. With the tokens of the old text, lexing meets
    /// them at the end of the text at the latest.
    pub fn is_done(&self) -> bool
        ensures over { result ≡ is_done self.now.text self.now.at }
        ensures met { (first : List ℕ → Token) (before insert : List ℕ) → IsGrammar first
            → IsRelexOf first before insert self.now → result ≡ self.now.at.met }
    {
        self.at.met || self.at.at == self.text.len()
    }

    /// Lexes and returns the next token, or returns `None` if lexing is done.
    pub fn next<S: Stepper>(&mut self, stepper: &mut S) -> Option<Token>
        ensures grammar { S.grammar stepper.new ≡ S.grammar stepper.old }

        // The token that was lexed, or none, only if lexing is done.
        ensures step { MatchOption result
            ((self.new ≡ self.old) × (S.count stepper.new ≡ S.count stepper.old)
            × (is_done self.old.text self.old.at ≡ true))
            (λ token. (token ≡ (S.grammar stepper.old).first (drop self.old.at.at self.old.text))
            × Advances (S.grammar stepper.old).first self.old 1 self.new
            × (S.count stepper.new ≡ S.count stepper.old + 1)
            × (is_done self.old.text self.old.at ≡ false)) }

        // If the old tokens are the tokens of an old text, it is the next token of the current text.
        ensures under_way { (before insert : List ℕ)
            → IsRelexOf (S.grammar stepper.old).first before insert self.old
            → MatchOption result (self.new.at.met ≡ true) (λ token.
            drop (known self.old.at) (tokens_by (S.grammar stepper.old).first self.old.text)
            ≡ token ∷ drop (known self.new.at) (tokens_by (S.grammar stepper.old).first self.old.text)) }
    {
        if self.is_done() {
            return None;
        }
        let token = stepper.step(&self.text[self.at.at..]);
        self.advance(1, token.len as usize);
        Some(token)
    }

    /// Writes the next tokens into the buffer, until it is full or lexing is done. Returns their number.
    ///
    /// These are the tokens that the same number of calls of [`next`](Relexer::next) would return.
    pub fn fill<S: Stepper, R: FromToken>(&mut self, stepper: &mut S, buffer: &mut [R]) -> usize
        ensures grammar { S.grammar stepper.new ≡ S.grammar stepper.old }
        ensures count { S.count stepper.new ≡ S.count stepper.old + result }
        ensures fills { Fills R.written (S.grammar stepper.old).first self.old buffer.old result self.new
            buffer.new }

        // It stops before the buffer is full only if lexing is done.
        ensures begins { 0 < result → is_done self.old.text self.old.at ≡ false }
        ensures over { result < length buffer.old → is_done self.old.text self.new.at ≡ true }
    {
        let mut count = 0;
        'places: while count < buffer.len() && !self.is_done() {
            count += self.fill_to_meeting(stepper, &mut buffer[count..]);
        }
        count
    }

    /// Writes the next tokens into the buffer, until it is full or up to the next offset at which they can meet the old
    /// ones. Returns their number.
    fn fill_to_meeting<S: Stepper, R: FromToken>(
        &mut self,
        stepper: &mut S,
        buffer: &mut [R],
    ) -> usize
        requires going { is_done self.old.text self.old.at ≡ false }
        requires room { 0 < length buffer.old }
        ensures grammar { S.grammar stepper.new ≡ S.grammar stepper.old }
        ensures count { S.count stepper.new ≡ S.count stepper.old + result }
        ensures fills { Fills R.written (S.grammar stepper.old).first self.old buffer.old result self.new
            buffer.new }
        ensures some { 0 < result }
    {
        let end = self.earliest_meeting();
        let (count, bytes) = stepper.fill(&self.text[self.at.at..], end - self.at.at, buffer);
        self.advance(count, bytes);
        count
    }

    /// Returns an offset after the lexed tokens, with none in between at which lexing can meet the old tokens.
    fn earliest_meeting(&self) -> usize
        requires { self.now.at.at < length self.now.text }
        ensures past { self.now.at.at < result }
        ensures inside { result ≤ length self.now.text }
        ensures none { IsClear self.now result }
    {
        let change = self.change;
        if self.at.at < change.new_end {
            return change.new_end;
        }
        let back = self.at.back.offset + change.new_end;
        if back <= self.at.at + change.old_end {
            return self.at.at + 1;
        }
        let earliest = back - change.old_end;
        if earliest < self.text.len() {
            earliest
        } else {
            self.text.len()
        }
    }

    /// Advances past the next `count` tokens, which have `bytes` bytes, and follows the old tokens.
    fn advance(&mut self, count: usize, bytes: usize)
        requires boundary { IsCharBoundary self.old.text (self.old.at.at + bytes) }
        requires few { count ≤ bytes }
        ensures { (first : List ℕ → Token) (end : ℕ) → IsGrammar first → IsNext first self.old count bytes end
            → Advances first self.old count self.new }
    {
        let at = self.at.at + bytes;
        let to = follow(
            self.old_tokens,
            self.at.back,
            at,
            self.change,
            self.text.len(),
        );
        self.at = RelexState {
            front: self.at.front,
            lexed: self.at.lexed + count,
            back: to.at,
            at,
            met: to.met,
        };
    }

    /// Returns the counts of the edit, once lexing is done.
    pub fn counts(&self) -> Relexed
        ensures counts { result ≡ record {
          kept_front = self.now.at.front.index;
          lexed = self.now.at.lexed;
          kept_back = length self.now.lengths - self.now.at.back.index;
        } }
        ensures exact { (first : List ℕ → Token) (before insert : List ℕ) → IsGrammar first
            → IsRelexOf first before insert self.now → self.now.at.met ≡ true
            → IsRelexed (fragment_by first) before self.now.change.start self.now.change.old_end insert
            result × IsWhole (tokens_by first before) (tokens_by first self.now.text) self.now.at }
    {
        self.at.counts(self.old_tokens.len())
    }
}
