//! Steppers, which lex by a grammar: one token at a time, or many at once.
ghost use Rattle.std.specs.Prelude.{◌≡◌, ◌+◌, ◌<◌, ◌≤◌, List, ℕ, length};
ghost use Rattle.rustc_lexer.specs.{Token};
ghost use Rattle.rustc_lexer.specs.Tokens.{IsFilledTo, bound, tokens_by};
ghost use Rattle.rustc_lexer.specs.Classes.{Fits};
ghost use Rattle.rustc_lexer.specs.Answers.{grammar_of};
ghost use Rattle.rustc_lexer.specs.LanguageText.{newest};
ghost use Rattle.rustc_lexer.specs.Locality.{Grammar, IsGrammar};

use crate::edition::{Edition, token_in};
use crate::entry::fill::FromToken;
use crate::entry::tally::Tally;
use crate::entry::tokenize_in;
use crate::token::Token;
use std::iter::Iterator;

/// A lexer for one grammar: it returns the first token of any text.
///
/// A first token is not empty, ends on a character boundary, and depends only on itself and the two characters after
/// it. `step` returns the first token of the text that it is called with, and always the same token for the same text.
/// In Rattle, every implementation proves this. In Rust, a lexed text calls only `step` of your stepper, and checks
/// where its tokens end; if the stepper breaks another rule, the tokens of an edited text can be wrong.
/// [`Relexer`](crate::Relexer) does not check a stepper: with tokens of length 0 it never finishes.
///
/// For this stepper, each character is a token:
///
/// ```
/// use rustc_lexer::{Stepper, Token, TokenKind};
///
/// struct Characters;
///
/// impl Stepper for Characters {
///     fn step(&mut self, rest: &str) -> Token {
///         let len = rest.chars().next().map_or(0, char::len_utf8) as u32;
///         Token { kind: TokenKind::Unknown, len }
///     }
/// }
///
/// assert_eq!(Characters.step("é+").len, 2);
/// ```
pub trait Stepper: Drop {
    /// The grammar of a stepper: the first token of each text, and the number that identifies the grammar.
    ghost grammar: { Self → Grammar };

    /// The number of steps so far.
    ghost count: { Self → ℕ };

    /// The first tokens of every stepper follow the rules of a grammar.
    ghost law: { (stepper : Self) → IsGrammar (grammar stepper).first };

    /// Returns the first token of the text, which must not be empty.
    fn step(&mut self, rest: &str) -> Token
        requires not_empty { 0 < length rest.now }
        requires fits { Fits rest.now }
        ensures token { result ≡ (grammar self.old).first rest.now }
        ensures count { count self.new ≡ count self.old + 1 }
        ensures grammar { grammar self.new ≡ grammar self.old };

    /// Writes the first tokens of the text into the buffer, until the buffer is full or the next token would not start
    /// before `end`. Returns how many tokens it wrote, and their total length in bytes. Each token counts as a step.
    ///
    /// `end` must be at most the length of the text in bytes; if it is greater, the call may panic.
    ///
    /// The default implementation calls `step` for each token. A stepper that can find many tokens at once overrides
    /// it.
    #[tactic(auto, using(crate::proofs::lemmas::tokens::Buffers::written_to, std::proofs::lemmas::Grind::common_steps))]
    fn fill<R: FromToken>(&mut self, text: &str, end: usize, buffer: &mut [R]) -> (usize, usize)
        requires fits { Fits text.now }
        requires inside { end ≤ length text.now }
        ensures filled { IsFilledTo R.written end (tokens_by (grammar self.old).first text.now)
            buffer.old buffer.new result.0 }
        ensures bytes { result.1 ≡ bound (tokens_by (grammar self.old).first text.now) result.0 }
        ensures count { count self.new ≡ count self.old + result.0 }
        ensures grammar { grammar self.new ≡ grammar self.old }
    {
        let mut written = 0;
        let mut at = 0;
        'places: while written < buffer.len() && at < end {
            let token = self.step(&text[at..]);
            buffer[written] = R::from_token(token);
            written += 1;
            at += token.len as usize;
        }
        (written, at)
    }
}

/// The lexer of this crate as a stepper, in an edition. It allows no frontmatter.
#[derive(Drop)]
pub struct Steps {
    edition: Edition,
    tally: Tally,
}

impl Steps {
    /// Creates a stepper for the newest edition. It has not made a step yet.
    pub fn new() -> Steps
        ensures count { ⟦<Steps as Stepper>⟧.count result ≡ 0 }
        ensures grammar { ⟦<Steps as Stepper>⟧.grammar result ≡ grammar_of newest }
    {
        Steps::new_in(Edition::NEWEST)
    }

    /// Creates a stepper for the given edition. It has not made a step yet.
    pub fn new_in(edition: Edition) -> Steps
        ensures count { ⟦<Steps as Stepper>⟧.count result ≡ 0 }
        ensures grammar { ⟦<Steps as Stepper>⟧.grammar result ≡ grammar_of edition }
    {
        Steps {
            edition,
            tally: Tally::new(),
        }
    }

    /// Returns the edition in which it lexes.
    pub(crate) fn edition(&self) -> Edition
        ensures { result ≡ self.now.edition }
    {
        self.edition
    }
}

impl Stepper for Steps {
    ghost use Rattle.rustc_lexer.specs.Answers.{grammar_of};
    ghost use Rattle.rustc_lexer.specs.laws.Edition.{edition_grammar};

    ghost grammar = { λ s. grammar_of s.edition };

    ghost count = { λ s. s.tally.count };

    ghost law = { λ s. edition_grammar s.edition };

    fn step(&mut self, rest: &str) -> Token {
        self.tally.add(1);
        token_in(rest, self.edition)
    }

    fn fill<R: FromToken>(&mut self, text: &str, end: usize, buffer: &mut [R]) -> (usize, usize) {
        let mut tokens = tokenize_in(text, self.edition);
        let past_end = text.len() - end;
        let mut count = 0;
        'places: while count < buffer.len() && tokens.left() > past_end {
            // Most tokens are classified already, so a branch of their own is faster.
            if let Some(token) = tokens.next_classified() {
                buffer[count] = R::from_token(token);
                count += 1;
                continue;
            }
            let Some(token) = tokens.next() else {
                break;
            };
            buffer[count] = R::from_token(token);
            count += 1;
        }
        self.tally.add(count);
        (count, text.len() - tokens.left())
    }
}
