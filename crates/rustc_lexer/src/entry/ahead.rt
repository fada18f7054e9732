//! The offset of the iterator in its text, and the next tokens as far as the ends of runs determine them. The ends are
//! found 64 bytes at a time.
ghost use Rattle.std.specs.Prelude.{◌≡◌, ◌+◌, ◌≤◌, ◌-◌, drop, length, MatchOption};
ghost use Rattle.rustc_lexer.specs.model.Ends.{AreEndsPast, IsUnclassified, TakesClassified, TellsAhead};

use crate::kernels::ends_of_runs;
use crate::lexemes::classified::{ends_after, may_continue, past_lowest};
use crate::lexemes::family::classified_by;
use crate::token::{Token, TokenKind};

/// The minimum number of remaining bytes for which the ends of runs are searched.
const SEARCHED: usize = 16;

/// An offset in a text, and what is known about the bytes after it.
#[derive(Clone, Copy)]
pub(crate) struct Ahead {
    /// The offset of the text that has not been lexed yet.
    pub(crate) at: usize,
    /// The offset that bit 0 of `ends` refers to.
    pub(crate) block: usize,
    /// The ends of runs from `block` on, as bits, or 0 if none are known. Bits up to `at` mean nothing.
    pub(crate) ends: u64,
    /// The kind of the next token, if its first byte and `ends` may determine the whole token. Then no bit up to `at`
    /// is set.
    pub(crate) classified: Option<TokenKind>,
}

impl Ahead {
    /// Returns the next token of the text, and moves past it, if its first byte and the ends of runs determine it.
    #[inline(always)]
    pub(crate) fn take(&mut self, text: &str) -> Option<Token>
        requires { TellsAhead text.now self.old }
        ensures { MatchOption result (IsUnclassified text.now self.old self.new)
            (TakesClassified text.now self.old self.new) }
    {
        let kind = self.classified?;
        let (block, ends) = ends_ahead(text, self.at, self.block, self.ends);
        self.block = block;
        self.ends = ends;
        if ends != 0 {
            let end = block + ends.trailing_zeros() as usize;
            let next = text.as_bytes()[end];
            // A byte that determines its own token never changes the token before it.
            let classified = classified_by(next);
            if classified.is_some() || !may_continue(kind, next) {
                let len = (end - self.at) as u32;
                self.at = end;
                self.ends = past_lowest(ends);
                self.classified = classified;
                return Some(Token { kind, len });
            }
        }
        self.classified = None;
        None
    }

    /// Starts to find tokens by the ends of runs, if the next byte allows it and many bytes are left. Ends that are
    /// already known are kept.
    #[inline(always)]
    pub(crate) fn classify_next(&mut self, text: &str)
        requires { TellsAhead text.now self.old }
        ensures at { self.new.at ≡ self.old.at }
        ensures tells { TellsAhead text.now self.new }
    {
        if text.len() - self.at < SEARCHED {
            return;
        }
        let classified = classified_by(text.as_bytes()[self.at]);
        if classified.is_some() {
            self.ends = ends_after(self.ends, self.at - self.block);
            self.classified = classified;
        }
    }
}

/// Returns the ends of runs after an offset, and the offset of the first byte that they cover. These are the known ends
/// or, if there are none, those of the next 64 bytes.
#[inline(always)]
#[tactic(auto, using(crate::proofs::lemmas::tokens::Classified::found_at, crate::proofs::lemmas::tokens::Classified::left_is, std::proofs::lemmas::Grind::common_steps))]
fn ends_ahead(text: &str, at: usize, block: usize, ends: u64) -> (usize, u64)
    requires inside { at ≤ length text.now }
    requires behind { block ≤ at }
    requires known { AreEndsPast (drop block text.now) (at - block) ends }
    ensures behind { result.0 ≤ at }
    ensures known { AreEndsPast (drop result.0 text.now) (at - result.0) result.1 }
{
    if ends != 0 {
        (block, ends)
    } else {
        (at, ends_of_runs(&text.as_bytes()[at..]))
    }
}
