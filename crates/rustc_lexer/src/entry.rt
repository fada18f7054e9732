//! The functions that lex a text, and the iterator over its tokens.
ghost use Rattle.std.specs.Prelude.{◌≡◌, drop, length, MatchOption};
ghost use Rattle.std.specs.Iterator.{at_most};
ghost use Rattle.std.specs.Str.{IsCharBoundary};
ghost use Rattle.rustc_lexer.specs.{E2015, E2018, No};
ghost use Rattle.rustc_lexer.specs.Classes.{Fits};
ghost use Rattle.rustc_lexer.specs.LanguageText.{mode_after, mode_edition, mode_in, part, newest};
ghost use Rattle.rustc_lexer.specs.Locality.{AreLocal};
ghost use Rattle.rustc_lexer.specs.Tokens.{ReadsAs, TakesToken, tokens_of, YieldsToken};

use crate::edition::{Edition, choose_in, reserves_guards};
use crate::entry::ahead::Ahead;
use crate::frontmatter::token_at;
use crate::lexemes::quick::quick_token;
use crate::token::{FrontmatterAllowed, Token, TokenKind};
use std::iter::Iterator;
use std::marker::Model;

mod ahead;
mod document;
pub(crate) mod fill;
pub(crate) mod stepper;
mod tally;

pub use document::tokenize_document;
pub use fill::FromToken;
pub use stepper::{Stepper, Steps};

/// Returns an iterator over the tokens of a text, lexed in the newest edition. The text may have at most `u32::MAX`
/// bytes.
///
/// The lengths of the tokens add up to the length of the text, and every token ends on a character boundary. With
/// `FrontmatterAllowed::No`, lexing from the end of any token returns the remaining tokens, so you can lex a slice of
/// the text that starts at a token.
///
/// To get the text of each token, add up the lengths:
///
/// ```ignore
/// // It looks for a word among the identifiers and keywords.
/// let mut start = 0;
/// for token in tokenize(text, FrontmatterAllowed::No) {
///     let end = start + token.len as usize;
///     if matches!(token.kind, TokenKind::Ident) && &text[start..end] == word {
///         return Some(start);
///     }
///     start = end;
/// }
/// ```
pub fn tokenize<'a>(input: &'a str, frontmatter_allowed: FrontmatterAllowed) -> Tokens<'a>
    requires fits { Fits input.now }
    ensures { ReadsAs frontmatter_allowed newest input.now result }
{
    tokenize_as(input, frontmatter_allowed, Edition::NEWEST)
}

/// Returns an iterator over the tokens of a fragment of a file, lexed in the given edition. The text may have at most
/// `u32::MAX` bytes. Dashes at its start are never a frontmatter.
///
/// The lengths of the tokens add up to the length of the text, every token ends on a character boundary, and lexing
/// from the end of any token returns the remaining tokens. With `Edition::NEWEST`, it returns the same tokens as
/// [`tokenize`] with `FrontmatterAllowed::No`.
///
/// `docs/EDITIONS.md` has a table of the tokens that differ in other editions. The loop at [`tokenize`] shows how to
/// use the iterator.
#[tactic(auto, using(crate::specs::laws::Edition::edition_grammar, crate::proofs::lemmas::edits::Settled::local, std::proofs::lemmas::Grind::common_steps))]
pub fn tokenize_in<'a>(text: &'a str, edition: Edition) -> EditionTokens<'a>
    requires fits { Fits text.now }
    ensures reads { ReadsAs No edition text.now result }
    ensures local { AreLocal (tokens_of (part edition)) }
    ensures newest { tokens_of (part newest) text.now ≡ tokens_of (mode_in No newest) text.now }
    ensures oldest { tokens_of (part E2015) text.now ≡ tokens_of (part E2018) text.now }
{
    tokenize_as(text, FrontmatterAllowed::No, edition)
}

/// Returns an iterator over the tokens of a text, lexed in the given edition, with or without a frontmatter at the
/// start. The text may have at most `u32::MAX` bytes.
///
/// `FrontmatterAllowed::Yes` is for a file after its shebang line: it may start with a frontmatter, which is lexed in
/// the same way in all editions. [`tokenize`] is this function with the newest edition, and [`tokenize_in`] is this
/// function with `FrontmatterAllowed::No`.
pub fn tokenize_as<'a>(
    text: &'a str,
    frontmatter_allowed: FrontmatterAllowed,
    edition: Edition,
) -> Tokens<'a>
    requires fits { Fits text.now }
    ensures { ReadsAs frontmatter_allowed edition text.now result }
{
    Tokens {
        text,
        ahead: Ahead {
            at: 0,
            block: 0,
            ends: 0,
            classified: None,
        },
        frontmatter_allowed,
        edition,
    }
}

/// An iterator over the tokens of a text.
///
/// It is returned by [`tokenize`], [`tokenize_in`], [`tokenize_as`] and [`tokenize_document`].
#[derive(Drop)]
pub struct Tokens<'a> {
    text: &'a str,
    ahead: Ahead,
    frontmatter_allowed: FrontmatterAllowed,
    edition: Edition,
}

/// The return type of [`tokenize_in`], which is another name of [`Tokens`].
pub type EditionTokens<'a> = Tokens<'a>;

impl<'a> Model for Tokens<'a> {
    ghost use Rattle.std.specs.Prelude.{drop};
    ghost use Rattle.rustc_lexer.specs.LanguageText.{mode_in};
    ghost use Rattle.rustc_lexer.specs.State.{State};
    ghost use Rattle.rustc_lexer.specs.model.Ends.{KnowsAhead};

    ghost Value = { State };

    ghost view = { λ t. record {
      pending = 0;
      rest = drop t.ahead.at t.text.now;
      mode = mode_in t.frontmatter_allowed t.edition;
    } };

    ghost invariant = { λ t. KnowsAhead
        t.frontmatter_allowed t.text.now t.ahead };
}

impl<'a> Tokens<'a> {
    /// Returns the text that has not been lexed yet.
    #[inline(always)]
    pub fn as_str(&self) -> &'a str
        ensures rest { result.now ≡ self.now.rest }
        ensures pending { self.now.pending ≡ 0 }
        ensures fits { Fits result.now }
    {
        &self.text[self.ahead.at..]
    }

    /// Returns whether the remaining text may start with a frontmatter.
    ///
    /// To continue later, pass [`as_str`](Tokens::as_str), this value and the edition to [`tokenize_as`].
    #[inline(always)]
    #[tactic(auto, using(crate::proofs::lemmas::tokens::Buffers::mode_held, std::proofs::lemmas::Grind::common_steps))]
    pub fn frontmatter_allowed(&self) -> FrontmatterAllowed
        ensures { self.now.mode ≡ mode_in result (mode_edition self.now.mode) }
    {
        self.frontmatter_allowed
    }

    /// Returns the number of bytes that are left.
    #[inline(always)]
    fn left(&self) -> usize
        ensures { result ≡ length self.now.rest }
    {
        self.text.len() - self.ahead.at
    }

    /// Returns an iterator at the same offset that has not classified the next token, so that no kind is stored in
    /// memory.
    #[inline(always)]
    pub(crate) fn copy_unclassified(&self) -> Tokens<'a>
        ensures { result ≡ self.now }
    {
        Tokens {
            text: self.text,
            ahead: Ahead {
                classified: None,
                ..self.ahead
            },
            frontmatter_allowed: self.frontmatter_allowed,
            edition: self.edition,
        }
    }

    /// Starts to find tokens by the ends of runs, if they determine the next token.
    #[inline(always)]
    fn classify_next(&mut self)
        ensures { self.new ≡ self.old }
    {
        if let FrontmatterAllowed::No = self.frontmatter_allowed {
            self.ahead.classify_next(self.text);
        }
    }

    /// Returns the next token if the ends of runs determine it. A loop with a branch of its own for these tokens is
    /// faster.
    #[inline(always)]
    #[tactic(auto, using(crate::proofs::lemmas::tokens::Classified::classified_lemmas, std::proofs::lemmas::Grind::common_steps))]
    pub(crate) fn next_classified(&mut self) -> Option<Token>
        ensures { MatchOption result (self.new ≡ self.old)
            (λ token. TakesToken self.old token self.new) }
    {
        self.ahead.take(self.text)
    }

    /// Returns the next token, like `next`, but through a call in a dev build: `fill` is compiled in the caller's
    /// crate, and this function in the lexer's.
    pub(crate) fn next_outlined(&mut self) -> Option<Token>
        ensures { YieldsToken self.old result self.new }
    {
        self.next()
    }

    /// Skips this many bytes, whatever tokens they belong to.
    #[inline(always)]
    pub(crate) fn skip_bytes(&mut self, len: usize)
        requires { IsCharBoundary self.old.rest len }
        ensures { self.new ≡ record self.old { rest = drop len self.old.rest } }
    {
        self.ahead.classified = None;
        self.ahead.at += len;
    }
}

impl<'a> Iterator for Tokens<'a> {
    type Item = Token;

    ghost next_gives = { YieldsToken };

    ghost remaining = { λ s. at_most (length s.rest) };

    /// Returns the next token, or `None` if no token is left. After `None` it always returns `None`.
    ///
    /// The ends of runs determine most tokens. The search for them starts after a word or a symbol. Each branch returns
    /// its own token, so a token that `quick_token` finds is never written to memory and read again.
    #[inline(always)]
    fn next(&mut self) -> Option<Token> {
        if let Some(token) = self.ahead.take(self.text) {
            return Some(token);
        }
        if self.ahead.at >= self.text.len() {
            return None;
        }
        let bytes = &self.text.as_bytes()[self.ahead.at..];
        if let FrontmatterAllowed::No = self.frontmatter_allowed {
            if let Some(quick) = quick_token(bytes, reserves_guards(self.edition)) {
                self.ahead.at += quick.len as usize;
                if !matches!(quick.kind, TokenKind::Whitespace) {
                    self.ahead.classify_next(self.text);
                }
                return Some(quick);
            }
            let chosen = choose_in(self.as_str(), self.edition);
            self.ahead.at += chosen.len as usize;
            return Some(chosen);
        }
        let token = token_at(self.as_str(), self.frontmatter_allowed, self.edition);
        self.ahead.at += token.len as usize;
        self.frontmatter_allowed = next_allowed(self.frontmatter_allowed, token.kind);
        Some(token)
    }
}

/// Returns whether a frontmatter can follow a token of this kind.
#[inline(always)]
fn next_allowed(allowed: FrontmatterAllowed, kind: TokenKind) -> FrontmatterAllowed
    ensures { (edition : Edition)
        → mode_in result edition ≡ mode_after (mode_in allowed edition) kind }
{
    match kind {
        TokenKind::Whitespace => allowed,
        _ => FrontmatterAllowed::No,
    }
}
