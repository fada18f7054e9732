//! Token boundaries that are remembered, so that a search starts near its target.
ghost use Rattle.std.specs.Prelude.{◌≤◌, List};
ghost use Rattle.std.specs.List.{All, Contains};
ghost use Rattle.rustc_lexer.specs.{Token};
ghost use Rattle.rustc_lexer.specs.model.Checkpoints.{AreBounds, IsMovable, IsReplaced};
ghost use Rattle.rustc_lexer.specs.Offsets.{IsBound};

use crate::relex::boundary::{FIRST, TokenStart};

/// The number of token boundaries that are remembered. It is odd, so up to `COUNT` consecutive multiples of a power of
/// two have different remainders.
const COUNT: usize = 63;

/// Some boundaries of a list of tokens: one for each share of its text. The length of a share is a power of two, and
/// there are at most `COUNT` shares.
#[derive(Clone, Copy)]
pub(crate) struct Checkpoints {
    bounds: [TokenStart; COUNT],
}

impl Checkpoints {
    /// Creates checkpoints that contain only the first boundary, which every list has.
    pub(crate) fn new() -> Checkpoints
        ensures { (tokens : List Token) → AreBounds tokens result }
    {
        Checkpoints {
            bounds: [FIRST; COUNT],
        }
    }

    /// Remembers the boundary instead of the one in the same share of a text of `len` bytes.
    ///
    /// The start of a share determines its slot. When a text grows so that two shares become one, it keeps the slot of
    /// the first, and the slot of the second becomes free for a share at the end of the text.
    pub(crate) fn remember(&mut self, bound: TokenStart, len: usize)
        ensures { (tokens : List Token) → AreBounds tokens self.old → IsBound tokens bound
            → AreBounds tokens self.new }
    {
        let share = (len / COUNT + 1).next_power_of_two();
        let start = bound.offset / share * share;
        self.bounds[start % COUNT] = bound;
    }

    /// Merges the boundaries of both, each into the slot of its share of a text of `len` bytes.
    pub(crate) fn joined(&self, more: &Checkpoints, len: usize) -> Checkpoints
        ensures { (tokens : List Token) → AreBounds tokens self.now → AreBounds tokens more.now
            → AreBounds tokens result }
    {
        let mut all = *more;
        for bound in &self.bounds {
            if bound.index > 0 {
                all.remember(*bound, len);
            }
        }
        all
    }

    /// Returns the checkpoint nearest to `offset`.
    pub(crate) fn nearest(&self, offset: usize) -> TokenStart
        ensures { Contains self.now.bounds result }
    {
        let mut nearest = self.bounds[0];
        let mut nearest_distance = nearest.offset.abs_diff(offset);
        for bound in &self.bounds {
            let distance = bound.offset.abs_diff(offset);
            if distance < nearest_distance {
                nearest = *bound;
                nearest_distance = distance;
            }
        }
        nearest
    }

    /// Returns the last checkpoint that has at most `number` tokens before it, or the first boundary of the list.
    pub(crate) fn before_number(&self, number: usize) -> TokenStart
        ensures number { result.index ≤ number }
        ensures bound { (tokens : List Token) → AreBounds tokens self.now → IsBound tokens result }
        ensures last { All (λ bound. bound.index ≤ number → bound.index ≤ result.index)
            self.now.bounds }
    {
        let mut last = FIRST;
        for bound in &self.bounds {
            if last.index < bound.index && bound.index <= number {
                last = *bound;
            }
        }
        last
    }

    /// Returns the checkpoints after an edit, which keeps the tokens up to the boundary `kept` and from the boundary
    /// `met` on. After the edit, `met` is the boundary `now`. A checkpoint between `kept` and `met` becomes `kept`.
    pub(crate) fn after(&self, kept: TokenStart, met: TokenStart, now: TokenStart) -> Checkpoints
        requires { All (IsMovable met now) self.now.bounds }
        ensures { (old new : List Token) → IsReplaced old new kept met now → AreBounds old self.now
            → AreBounds new result }
    {
        let mut bounds = [kept; COUNT];
        for (i, bound) in self.bounds.iter().enumerate() {
            bounds[i] = move_bound(*bound, kept, met, now);
        }
        Checkpoints { bounds }
    }
}

/// Returns the boundary after an edit, which keeps the tokens up to `kept` and from `met` on. After the edit, `met` is
/// the boundary `now`, and a boundary between `kept` and `met` becomes `kept`.
#[tactic(auto, using(crate::proofs::lemmas::edits::Checkpoints::front_stays, crate::proofs::lemmas::edits::Checkpoints::kept_stays, std::proofs::lemmas::Grind::common_steps))]
fn move_bound(bound: TokenStart, kept: TokenStart, met: TokenStart, now: TokenStart) -> TokenStart
    requires { IsMovable met now bound }
    ensures { (old new : List Token) → IsReplaced old new kept met now → IsBound old bound
        → IsBound new result }
{
    if bound.index <= kept.index {
        bound
    } else if bound.index >= met.index {
        TokenStart {
            index: bound.index - met.index + now.index,
            offset: bound.offset - met.offset + now.offset,
        }
    } else {
        kept
    }
}
