//! Texts that are joined from pieces without changing their tokens.
ghost use Rattle.std.specs.Prelude.{◌≡◌, ◌+◌, ◌<◌, ◌≤◌, ◌^◌, ◌++◌, ◌↔◌, false, true, ℕ, List, if◌then◌else◌, IfErr};
ghost use Rattle.std.specs.Prelude.{IfSome, IsTrue, OnErr, OnOk, drop, is_some, length, take, Some, []};
ghost use Rattle.std.specs.Str.{IsCharBoundary, chars};
ghost use Rattle.std.specs.String.{string_bytes, string_capacity, string_len};
ghost use Rattle.rustc_lexer.specs.Answers.{first_in, tokens_of};
ghost use Rattle.rustc_lexer.specs.Classes.{Fits, Utf8};
ghost use Rattle.rustc_lexer.specs.Joined.{AreWellFormed, AreInseparable, IsJoined, IsRefused, IsSeparated, MayEnd};
ghost use Rattle.rustc_lexer.specs.Joined.{MayTouch, RunsOn, TailDecides, WhiteSpaceSeparates, cut_to, error_text};
ghost use Rattle.rustc_lexer.specs.LanguageText.{part};
ghost use Rattle.rustc_lexer.specs.Locality.{has_two};
ghost use Rattle.rustc_lexer.specs.{Token};
ghost use Rattle.rustc_lexer.specs.model.Joined.{IsFinalBoundary};

use crate::edition::{Edition, token_in};
use crate::relex::boundary::{has_two_chars_between, is_boundary_two_chars_before};
use crate::relex::settle::settled_in;
use std::alloc::Global;
use std::error::Error;
use std::fmt;
use std::marker::Model;

/// If at most this many bytes follow the last known final boundary, they are re-lexed with the next piece. That is
/// faster than a search for a later final boundary.
const SHORT: usize = 10;

/// Returns whether the tokens of a text are the tokens of its part before `at`, followed by the tokens of its part
/// after `at`. It lexes only up to the first token that differs.
#[tactic(auto, using(crate::proofs::lemmas::joined::Separators::white_space_separates, crate::proofs::lemmas::joined::FinalBoundary::tail_decides, std::proofs::lemmas::Grind::common_steps))]
pub fn is_token_boundary(text: &str, at: usize, edition: Edition) -> bool
    requires fits { Fits text.now }
    requires boundary { IsCharBoundary text.now at }
    ensures touch { IsTrue result ↔ MayTouch edition (take at text.now) (drop at text.now) }
    ensures tail { TailDecides edition (take at text.now) (drop at text.now) }
    ensures white_space { WhiteSpaceSeparates edition }
{
    let mut offset = 0;
    while offset < at {
        let alone = token_in(&text[offset..at], edition);
        let together = token_in(&text[offset..], edition);
        if alone != together {
            return false;
        }
        offset += alone.len as usize;
    }
    true
}

/// The error of a piece that is rejected.
#[derive(Clone, Copy, Debug, PartialEq, Eq)]
pub enum JoinError {
    /// No separator keeps all tokens: directly after the text, after a space and after a newline, the piece would
    /// change a token of the text, or its own tokens would change.
    ///
    /// The text contains an unterminated token or a malformed raw string, or the piece starts with whitespace that
    /// would become part of the last token.
    Inseparable,
    /// The text might be longer than `u32::MAX` bytes.
    TooLong,
    /// An allocation failed.
    Memory,
}

impl fmt::Display for JoinError {
    ghost output = { λ error. Some (error_text error) };

    fn fmt<W: fmt::Write>(&self, f: &mut fmt::Formatter<W>) -> fmt::Result {
        f.write_str(match self {
            JoinError::Inseparable => "no separator keeps the tokens of the text and the piece",
            JoinError::TooLong => "the text might have more than u32::MAX bytes",
            JoinError::Memory => "memory allocation failed",
        })
    }
}

impl Error for JoinError {}

/// A text that is joined from pieces. Its tokens are the tokens of the pieces, in order, and of the separators. A
/// separator is a space or a newline, and comes only between two pieces that would change each other's tokens.
#[derive(Drop)]
pub struct JoinedText {
    text: String,
    edition: Edition,
    /// A token boundary that at least two characters follow, or 0. The tokens before it are final, whatever is
    /// appended.
    settled: usize,
}

impl Model for JoinedText {
    ghost use Rattle.std.specs.String.{string_bytes};
    ghost use Rattle.rustc_lexer.specs.Answers.{first_in};
    ghost use Rattle.rustc_lexer.specs.Classes.{IsText};
    ghost use Rattle.rustc_lexer.specs.Joined.{Joined};
    ghost use Rattle.rustc_lexer.specs.model.Joined.{IsFinalBoundary};

    ghost Value = { Joined };

    ghost view = { λ j. record {
      edition = j.edition;
      text = string_bytes j.text;
    } };

    ghost invariant = { λ j. IsText (string_bytes j.text)
        × IsFinalBoundary (first_in j.edition) (string_bytes j.text) j.settled };
}

impl JoinedText {
    /// Creates an empty text whose pieces are lexed in the given edition.
    #[tactic(auto, using(crate::proofs::lemmas::joined::FinalBoundary::final_start, std::proofs::lemmas::Grind::common_steps))]
    pub fn new(alloc: Global, edition: Edition) -> JoinedText
        ensures text { result.text ≡ [] }
        ensures edition { result.edition ≡ edition }
    {
        JoinedText {
            text: String::new(alloc),
            edition,
            settled: 0,
        }
    }

    /// Returns the text.
    pub fn as_str(&self) -> &str
        ensures text { result.now ≡ self.now.text }
        ensures fits { Fits result.now }
    {
        self.text.as_str()
    }

    /// Returns the edition in which the pieces are lexed.
    pub fn edition(&self) -> Edition
        ensures { result ≡ self.now.edition }
    {
        self.edition
    }

    /// Returns the text, without copying it.
    pub fn into_string(self) -> String
        ensures { string_bytes result ≡ self.text }
    {
        let JoinedText { text, .. } = self;
        text
    }

    /// Appends a piece without changing any token: directly after the text if possible, otherwise after a space, and
    /// otherwise after a newline. A piece can be one token or any other text.
    ///
    /// # Errors
    ///
    /// Returns an error if the piece is rejected. In that case nothing has changed.
    pub fn push(&mut self, piece: &str) -> Result<(), JoinError>
        ensures joined { OnOk result
            (IsJoined self.old.edition self.old.text piece.now self.new.text) }
        ensures only { OnOk result
            ((other : Utf8) → IsJoined self.old.edition self.old.text piece.now other
            → other ≡ self.new.text) }
        ensures edition { self.new.edition ≡ self.old.edition }
        ensures same { OnErr result (self.new ≡ self.old) }
        ensures refused { IfErr result (IsRefused self.old piece.now) }
        ensures closed { IfErr result (λ e. e ≡ JoinError.Inseparable
            → AreWellFormed (tokens_of (part self.old.edition) self.old.text)
            → RunsOn (tokens_of (part self.old.edition) self.old.text) (chars piece.now)) }
    {
        let at = self.text.len();
        if piece.len() >= u32::MAX as usize - at {
            return Err(JoinError::TooLong);
        }
        if self.text.reserve(piece.len() + 1).is_err() {
            return Err(JoinError::Memory);
        }
        if !append_separated(&mut self.text, self.settled, self.edition, piece) {
            return Err(JoinError::Inseparable);
        }
        let text = self.text.as_str();
        let settled = settled_joined(text, self.settled, at);
        self.settled = settled_later(text, settled, self.edition);
        Ok(())
    }

    /// Shortens the text to its first `len` bytes if it can be split there without changing its tokens, for example at
    /// the end of a piece. Returns whether it can; if not, nothing changes.
    pub fn truncate(&mut self, len: usize) -> bool
        ensures may { IsTrue result ↔ MayEnd self.old len }
        ensures cut { IsTrue result → self.new ≡ cut_to self.old len }
        ensures same { result ≡ false → self.new ≡ self.old }
    {
        let text = self.text.as_str();
        if !text.is_char_boundary(len) {
            return false;
        }
        let Some(settled) = settled_before(text, self.settled, len, self.edition) else {
            return false;
        };
        self.text.truncate(len);
        self.settled = settled;
        true
    }
}

/// Returns a final boundary of the text up to `at`, from a final boundary of the whole text, or `None` if the text
/// cannot be split at `at`.
#[tactic(auto, using(crate::proofs::lemmas::joined::FinalBoundary::final_start, crate::proofs::lemmas::joined::FinalBoundary::final_place, crate::proofs::lemmas::joined::FinalBoundary::final_cut))]
fn settled_before(text: &str, settled: usize, at: usize, edition: Edition) -> Option<usize>
    requires fits { Fits text.now }
    requires boundary { IsCharBoundary text.now at }
    requires settled { IsFinalBoundary (first_in edition) text.now settled }
    ensures may { IsTrue (is_some result)
        ↔ MayTouch edition (take at text.now) (drop at text.now) }
    ensures settled { IfSome result (λ it. IsFinalBoundary (first_in edition) (take at text.now) it) }
{
    let settled = if has_two_chars_between(text, settled, at) {
        settled
    } else {
        0
    };
    if is_prefix_stable(text, settled, at, edition) {
        Some(settled)
    } else {
        None
    }
}

/// Appends the piece with the first separator that keeps all tokens. Returns whether there is one; if not, the text is
/// unchanged. The text already has capacity for a separator of one byte.
#[tactic(auto, using(crate::proofs::lemmas::joined::Joined::joined_lemmas, std::proofs::lemmas::Grind::common_steps))]
fn append_separated(text: &mut String, settled: usize, edition: Edition, piece: &str) -> bool
    requires fits { length (string_bytes text.old) + (length piece.now + 1) < 2 ^ 32 }
    requires room { string_len text.old + (length piece.now + 1) ≤ string_capacity text.old }
    requires settled { IsFinalBoundary (first_in edition) (string_bytes text.old) settled }
    ensures joined { IsTrue result
        → IsJoined edition (string_bytes text.old) piece.now (string_bytes text.new) }
    ensures apart { result ≡ false → AreInseparable edition (string_bytes text.old) piece.now }
    ensures same { result ≡ false → string_bytes text.new ≡ string_bytes text.old }
{
    if append(text, settled, edition, "", piece) {
        return true;
    }
    if append(text, settled, edition, " ", piece) {
        return true;
    }
    append(text, settled, edition, "\n", piece)
}

/// Appends the separator and the piece if that keeps all tokens. Returns whether it does. The text already has capacity
/// for them.
fn append(text: &mut String, settled: usize, edition: Edition, separator: &str, piece: &str) -> bool
    requires fits { length (string_bytes text.old) + (length separator.now + length piece.now)
        < 2 ^ 32 }
    requires room { string_len text.old + (length separator.now + length piece.now)
        ≤ string_capacity text.old }
    requires settled { IsFinalBoundary (first_in edition) (string_bytes text.old) settled }
    ensures separated { IsTrue result
        ↔ IsSeparated edition (string_bytes text.old) separator.now piece.now }
    ensures text { string_bytes text.new
        ≡ (if result then string_bytes text.old ++ (separator.now ++ piece.now) else string_bytes
        text.old) }
    ensures len { result ≡ false → string_len text.new ≡ string_len text.old }
    ensures capacity { string_capacity text.old ≤ string_capacity text.new }
{
    let at = text.as_str().len();
    append_both(text, separator, piece);
    let separated = separates(text.as_str(), settled, at, separator.len(), edition);
    if !separated {
        text.truncate(at);
    }
    separated
}

/// Appends both texts. The text already has capacity for them.
fn append_both(text: &mut String, separator: &str, piece: &str)
    requires fits { length (string_bytes text.old) + (length separator.now + length piece.now)
        < 2 ^ 32 }
    requires room { string_len text.old + (length separator.now + length piece.now)
        ≤ string_capacity text.old }
    ensures text { string_bytes text.new ≡ string_bytes text.old ++ (separator.now ++ piece.now) }
    ensures capacity { string_capacity text.old ≤ string_capacity text.new }
{
    let put_separator = text.push_str(separator);
    // There is room, so neither call allocates.
    prove!(put_separator.is_ok());
    let put_piece = text.push_str(piece);
    prove!(put_piece.is_ok());
}

/// Returns whether the separator, which is the `len` bytes from `at` on, keeps its tokens before the text after it. An
/// empty separator does.
#[inline(always)]
fn keeps_separator(text: &str, at: usize, len: usize, edition: Edition) -> bool
    requires fits { Fits text.now }
    requires boundary { IsCharBoundary text.now at }
    requires end { IsCharBoundary (drop at text.now) len }
    ensures { IsTrue result
        ↔ MayTouch edition (take len (drop at text.now)) (drop len (drop at text.now)) }
{
    if len == 0 {
        return true;
    }
    is_token_boundary(&text[at..], len, edition)
}

/// Returns whether the `len` bytes from `at` on separate the texts before and after them without changing any token.
fn separates(text: &str, settled: usize, at: usize, len: usize, edition: Edition) -> bool
    requires fits { Fits text.now }
    requires boundary { IsCharBoundary text.now at }
    requires end { IsCharBoundary (drop at text.now) len }
    requires settled { IsFinalBoundary (first_in edition) (take at text.now) settled }
    ensures { IsTrue result ↔ IsSeparated edition (take at text.now) (take len (drop at text.now))
        (drop len (drop at text.now)) }
{
    keeps_separator(text, at, len, edition) && is_prefix_stable(text, settled, at, edition)
}

/// Returns whether the tokens before `at` are also the first tokens of the whole text. The tokens before `settled` are.
fn is_prefix_stable(text: &str, settled: usize, at: usize, edition: Edition) -> bool
    requires fits { Fits text.now }
    requires boundary { IsCharBoundary text.now at }
    requires settled { IsFinalBoundary (first_in edition) (take at text.now) settled }
    ensures { IsTrue result ↔ MayTouch edition (take at text.now) (drop at text.now) }
{
    is_token_boundary(&text[settled..], at - settled, edition)
}

/// Returns a final boundary of a joined text: the end of the text before the piece, if two characters follow it, and
/// otherwise `settled`.
fn settled_joined(text: &str, settled: usize, at: usize) -> usize
    ensures { (first : List ℕ → Token) → IsFinalBoundary first text.now settled
        → (has_two text.now at (length text.now) ≡ true → IsFinalBoundary first text.now at)
        → IsFinalBoundary first text.now result }
{
    if is_boundary_two_chars_before(text, at, text.len()) {
        at
    } else {
        settled
    }
}

/// Returns the last final boundary of the text, or `settled` itself if only few bytes follow it.
fn settled_later(text: &str, settled: usize, edition: Edition) -> usize
    requires fits { Fits text.now }
    requires settled { IsFinalBoundary (first_in edition) text.now settled }
    ensures { IsFinalBoundary (first_in edition) text.now result }
{
    if text.len().saturating_sub(settled) <= SHORT {
        return settled;
    }
    settled + settled_in(&text[settled..], edition)
}
