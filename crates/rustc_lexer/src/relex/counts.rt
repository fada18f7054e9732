//! The counts of an edit: how many tokens it kept and lexed.
ghost use Rattle.std.specs.Prelude.{◌≡◌, ◌^◌, ◌<◌, ◌↔◌, IsTrue, List, length, min, ℕ};
ghost use Rattle.rustc_lexer.specs.{Token};
ghost use Rattle.rustc_lexer.specs.Edits.{all_kept, count_after, none_kept};
ghost use Rattle.rustc_lexer.specs.LexedText.{AreKept};

/// The counts of an edit, or of a list of edits.
#[derive(Clone, Copy, Debug, PartialEq, Eq)]
pub struct Relexed {
    /// The number of tokens that were kept at the front.
    pub kept_front: usize,
    /// The number of tokens between the kept ones. After a single edit, these are the tokens that were lexed.
    pub lexed: usize,
    /// The number of tokens that were kept at the back.
    pub kept_back: usize,
}

impl Relexed {
    /// Returns the counts of an empty list of edits: all `count` tokens are kept at the front.
    pub fn all(count: usize) -> Relexed
        ensures { result ≡ all_kept count }
    {
        Relexed {
            kept_front: count,
            lexed: 0,
            kept_back: 0,
        }
    }

    /// Returns the counts of a new text with `count` tokens, none of them kept.
    pub fn none(count: usize) -> Relexed
        ensures { result ≡ none_kept count }
    {
        Relexed {
            kept_front: 0,
            lexed: count,
            kept_back: 0,
        }
    }

    /// Returns the counts of two consecutive edits, or lists of edits: `self` has the counts of the first, and `next`
    /// of the second. There were `old_count` tokens before the first.
    ///
    /// At each end, the result keeps the minimum of the two. If one of them keeps [`all`](Relexed::all) tokens, the
    /// result is the other one.
    ///
    /// To repaint, start with `all` of the tokens that were painted last; `old_count` is their number. Before the
    /// first paint, start with [`none`](Relexed::none) of the text's tokens, and `old_count` is 0.
    ///
    /// ```
    /// use rustc_lexer::Relexed;
    ///
    /// // The nine tokens of `a b c d e` are painted. Then the `d` is replaced, and the `b`.
    /// let first = Relexed { kept_front: 4, lexed: 3, kept_back: 2 };
    /// let second = Relexed { kept_front: 0, lexed: 3, kept_back: 6 };
    /// let counts = Relexed::all(9).then(first, 9).then(second, 9);
    /// assert_eq!(counts, Relexed { kept_front: 0, lexed: 7, kept_back: 2 });
    /// ```
    pub fn then(self, next: Relexed, old_count: usize) -> Relexed
        ensures kept { (old between new : List Token)
            → length old ≡ old_count → length between < 2 ^ 64 → length new < 2 ^ 64
            → AreKept old between self → AreKept between new next → AreKept old new result }
        ensures first { self ≡ all_kept old_count → result ≡ next }
        ensures second { next ≡ all_kept (count_after self) → result ≡ self }
        ensures least { count_after self < 2 ^ 64 → count_after next < 2 ^ 64
            → (self ≡ all_kept old_count → ⊥) → (next ≡ all_kept (count_after self) → ⊥)
            → (result.kept_front ≡ min self.kept_front next.kept_front)
            × (result.kept_back ≡ min self.kept_back next.kept_back)
            × (count_after result ≡ count_after next) }
    {
        let between = self
            .kept_front
            .saturating_add(self.lexed)
            .saturating_add(self.kept_back);
        if self.keeps_all(old_count) {
            return next;
        }
        if next.keeps_all(between) {
            return self;
        }
        let kept_front = self.kept_front.min(next.kept_front);
        let kept_back = self.kept_back.min(next.kept_back);
        let front = next.kept_front - kept_front;
        let back = next.kept_back - kept_back;
        Relexed {
            kept_front,
            lexed: front.saturating_add(next.lexed).saturating_add(back),
            kept_back,
        }
    }

    /// Returns whether all `count` tokens are kept at the front, and none is new.
    fn keeps_all(self, count: usize) -> bool
        ensures { IsTrue result ↔ (self ≡ all_kept count) }
    {
        self.kept_front == count && self.lexed == 0 && self.kept_back == 0
    }
}
