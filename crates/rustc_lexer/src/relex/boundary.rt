//! Finds the old tokens that an edit keeps.
//!
//! The functions here read only the lengths of the old tokens. Any lengths are safe, but the results are meaningful
//! only for the lengths of a text's tokens.
#![tactic(auto, using(crate::proofs::lemmas::edits::FrontAndBack::edit_lemmas, std::proofs::lemmas::Grind::common_steps))]

ghost use Rattle.std.specs.Prelude.{◌≡◌, ◌+◌, ◌-◌, ◌*◌, ◌<◌, ◌≤◌, ◌^◌, IfSome, IsNone, List, length, map, ℕ, true};
ghost use Rattle.std.specs.Prelude.{false, IsCharBoundary, max};
ghost use Rattle.rustc_lexer.specs.{Token};
ghost use Rattle.rustc_lexer.specs.Offsets.{ArePlaced, ContainsByte, IsBound};
ghost use Rattle.rustc_lexer.specs.Locality.{has_two};
ghost use Rattle.rustc_lexer.specs.Tokens.{bound};
ghost use Rattle.rustc_lexer.specs.model.Relexer.{IsFollowed, IsFront, IsLast, HasLengths, kept_front};

use crate::relex::change::Change;
use crate::token::Token;

/// Something that has a length in bytes, such as a token.
pub trait TextLen {
    /// The length in bytes.
    ghost bytes: { Self → ℕ };

    /// Returns the length in bytes.
    fn len(&self) -> u32
        ensures { result ≡ bytes self.now };
}

impl TextLen for Token {
    ghost bytes = { λ token. token.len };

    fn len(&self) -> u32 {
        self.len
    }
}

/// The start of a token, or the end of the last one: its index and its offset.
#[derive(Clone, Copy, Debug, PartialEq, Eq)]
pub struct TokenStart {
    /// The number of tokens before it, which is the index of the token that starts there.
    pub index: usize,
    /// The offset in bytes from the start of the text.
    pub offset: usize,
}

/// The first boundary of any list of tokens.
pub(crate) const FIRST: TokenStart = TokenStart {
    index: 0,
    offset: 0,
};

/// Returns whether there are at least two characters between the two offsets.
#[inline(always)]
pub(crate) fn has_two_chars_between(text: &str, from: usize, to: usize) -> bool
    requires from_boundary { IsCharBoundary text.now from }
    requires to_boundary { IsCharBoundary text.now to }
    ensures { result ≡ has_two text.now from to }
{
    if from >= to {
        return false;
    }
    if to - from >= 8 {
        return true;
    }
    let mut chars = text[from..to].chars();
    match chars.next() {
        Some(_) => chars.next().is_some(),
        None => false,
    }
}

/// Returns whether `from` is a character boundary with at least two characters between it and `to`.
#[inline(always)]
pub(crate) fn is_boundary_two_chars_before(text: &str, from: usize, to: usize) -> bool
    requires to_boundary { IsCharBoundary text.now to }
    ensures late { to ≤ from → result ≡ false }
    ensures boundary { result ≡ true → IsCharBoundary text.now from }
    ensures two { IsCharBoundary text.now from → result ≡ has_two text.now from to }
{
    text.is_char_boundary(from) && has_two_chars_between(text, from, to)
}

/// Returns the last boundary up to `near` that is not after `target`, or the first boundary.
fn walk_back<T: TextLen>(tokens: &[T], near: TokenStart, target: usize) -> TokenStart
    ensures number { result.index ≤ length tokens.now }
    ensures first { target < result.offset → result.index ≡ 0 }
    ensures bound { (first : ℕ) (ts : List Token) → ArePlaced (map T.bytes tokens.now) first ts near
        → ArePlaced (map T.bytes tokens.now) first ts result }
{
    if near.index > tokens.len() {
        return FIRST;
    }
    let mut at = near;
    while at.index > 0 && target < at.offset {
        let index = at.index - 1;
        at = TokenStart {
            index,
            offset: at.offset.saturating_sub(tokens[index].len() as usize),
        };
    }
    at
}

/// Returns the token that contains the byte at `offset`: its index and its start. Returns `None` if the offset is
/// before the first token or after the last one.
///
/// The search starts at `near`, which can be any boundary of the tokens, and reads the lengths of the tokens between it
/// and the offset. If `near` is not a boundary, the result has no meaning.
pub fn find_token<T: TextLen>(tokens: &[T], near: TokenStart, offset: usize) -> Option<TokenStart>
    ensures token { IfSome result (λ at. (first : ℕ) (ts : List Token)
        → ArePlaced (map T.bytes tokens.now) first ts near → ContainsByte first ts offset at) }
    ensures none { IsNone result → (first : ℕ) (ts : List Token)
        → ArePlaced (map T.bytes tokens.now) first ts near
        → first ≤ offset → first + bound ts (length ts) ≤ offset }
{
    let at = walk_back(tokens, near, offset);
    if offset < at.offset {
        return None;
    }
    // Counting down the remaining bytes is faster than adding up offsets.
    let mut index = at.index;
    let mut left = offset - at.offset;
    'ahead: while index < tokens.len() {
        let len = tokens[index].len() as usize;
        if left < len {
            return Some(TokenStart {
                index,
                offset: offset - left,
            });
        }
        index += 1;
        left -= len;
    }
    None
}

/// Returns the end of the last token that ends at least two characters before `start`. The search starts at `near`,
/// which can be any boundary.
pub(crate) fn kept_front<T: TextLen>(
    text: &str,
    tokens: &[T],
    start: usize,
    near: TokenStart,
) -> TokenStart
    requires boundary { IsCharBoundary text.now start }
    ensures number { result.index ≤ length tokens.now }
    ensures boundary { IsCharBoundary text.now result.offset }
    ensures before { result.offset ≤ start }
    ensures front { (old : List ℕ) (ts : List Token)
        → IsFront old ts (map T.bytes tokens.now) text.now start → IsBound ts near
        → (result.index ≡ kept_front old ts start)
        × IsBound ts result
        × (0 < result.index → has_two old result.offset start ≡ true) }
{
    // Eight bytes contain at least two characters.
    let back = walk_back(tokens, near, start.saturating_sub(8));
    let mut at = if is_boundary_two_chars_before(text, back.offset, start) {
        back
    } else {
        FIRST
    };
    while at.index < tokens.len() {
        let next = TokenStart {
            index: at.index + 1,
            offset: at.offset + tokens[at.index].len() as usize,
        };
        if !is_boundary_two_chars_before(text, next.offset, start) {
            break;
        }
        at = next;
    }
    at
}

/// Returns the first boundary from `from` on that is not before `target`, or the last boundary.
fn walk_forward<T: TextLen>(tokens: &[T], from: TokenStart, target: usize) -> TokenStart
    requires number { from.index ≤ length tokens.now }
    requires small { from.offset < 2 ^ 63 }
    requires target_small { target < 2 ^ 34 }
    ensures number { result.index ≤ length tokens.now }
    ensures ahead { from.index ≤ result.index }
    ensures small { result.offset < 2 ^ 63 }
    ensures bound { (ts : List Token) → HasLengths ts (map T.bytes tokens.now) → IsBound ts from
        → ((k : ℕ) → k < from.index → bound ts k < target)
        → IsBound ts result
        × ((k : ℕ) → k < result.index → bound ts k < target)
        × (result.index < length tokens.now → target ≤ result.offset) }
{
    let mut at = from;
    while at.index < tokens.len() && at.offset < target {
        at = TokenStart {
            index: at.index + 1,
            offset: at.offset + tokens[at.index].len() as usize,
        };
    }
    at
}

/// A position in the old tokens, and whether the new tokens meet it.
#[derive(Clone, Copy)]
pub(crate) struct Meeting {
    pub at: TokenStart,
    pub met: bool,
}

/// Follows the old tokens up to the new boundary at `offset`, and returns whether the two meet there: whether
/// `offset` is after the edit and, moved back by it, is a boundary of the old tokens. The end of the new text, at `end`,
/// is always the last such boundary, so no length is read there.
pub(crate) fn follow<T: TextLen>(
    tokens: &[T],
    from: TokenStart,
    offset: usize,
    change: Change,
    end: usize,
) -> Meeting
    requires number { from.index ≤ length tokens.now }
    requires small { from.offset < 2 ^ 63 }
    requires offset_fits { offset + change.old_end < 2 ^ 34 }

    // It is not before `from`, and is among the old tokens.
    ensures number { result.at.index ≤ length tokens.now }
    ensures ahead { from.index ≤ result.at.index }
    ensures small { result.at.offset < 2 ^ 63 }

    // Before the end of the edit, no old token is met.
    ensures stays { offset < change.new_end → result.at ≡ from }
    ensures early { offset < change.new_end → result.met ≡ false }

    // After it, exactly how far they are followed, and whether they are met there.
    ensures followed { (ts : List Token) → HasLengths ts (map T.bytes tokens.now) → IsBound ts from
        → ((k : ℕ) → k < from.index
        → bound ts k + change.new_end < max change.new_end offset + change.old_end)
        → (offset ≡ end → IsLast ts (offset - change.new_end + change.old_end))
        → IsFollowed ts change.old_end change.new_end offset result.at result.met }
{
    if offset < change.new_end {
        return Meeting {
            at: from,
            met: false,
        };
    }
    let target = offset - change.new_end + change.old_end;
    if offset == end {
        return Meeting {
            at: TokenStart {
                index: tokens.len(),
                offset: target,
            },
            met: true,
        };
    }
    let at = walk_forward(tokens, from, target);
    Meeting {
        at,
        met: at.offset == target,
    }
}
