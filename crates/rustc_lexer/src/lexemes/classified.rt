//! The ends of runs, and the bytes after a run that can change its token.
ghost use Rattle.std.specs.Prelude.{◌≡◌, ◌≢◌, ◌≤◌, ◌<◌, ℕ, false, true, IsFalse};
ghost use Rattle.rustc_lexer.specs.model.Ends.{bit, IsLowest, StaysWithin};

use crate::kernels::turns_word;
use crate::token::TokenKind;

/// Returns the known ends of runs after an offset.
#[inline(always)]
#[tactic(auto, using(crate::proofs::lemmas::tokens::Bits::bit_lemmas, std::proofs::lemmas::Grind::common_steps))]
pub(crate) fn ends_after(ends: u64, offset: usize) -> u64
    ensures gone { (k : ℕ) → k ≤ offset → bit result k ≡ false }
    ensures others { (k : ℕ) → offset < k → bit result k ≡ bit ends k }
{
    if offset < 64 {
        ends & (!1 << offset)
    } else {
        0
    }
}

/// Returns the ends of runs without the lowest one.
#[inline(always)]
#[tactic(auto, using(crate::proofs::lemmas::tokens::Bits::bit_lemmas, std::proofs::lemmas::Grind::common_steps))]
pub(crate) fn past_lowest(ends: u64) -> u64
    requires { ends ≢ 0 }
    ensures gone { (low k : ℕ) → IsLowest ends low → k ≤ low → bit result k ≡ false }
    ensures others { (low k : ℕ) → IsLowest ends low → low < k → bit result k ≡ bit ends k }
{
    ends & (ends - 1)
}

/// Returns whether the byte `next` after the run can change or extend the token of that kind.
#[inline(always)]
pub(crate) fn may_continue(kind: TokenKind, next: u8) -> bool
    ensures { IsFalse result → StaysWithin kind next }
{
    turns_word(next)
        && match kind {
            TokenKind::Ident => true,
            TokenKind::Whitespace => next == 0xC2 || next == 0xE2,
            _ => false,
        }
}
