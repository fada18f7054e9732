//! The effect of an edit of a document on its head, and the change of its body.
ghost use Rattle.std.specs.Prelude.{◌≡◌, ◌^◌, ◌<◌, ◌≤◌, ◌↔◌, IsTrue, List, length, ℕ};
ghost use Rattle.rustc_lexer.specs.{Token};
ghost use Rattle.rustc_lexer.specs.Locality.{IsGrammar};
ghost use Rattle.rustc_lexer.specs.Relexer.{IsBodyChange, IsEditOf, IsHeadOf, IsInBody};
ghost use Rattle.rustc_lexer.specs.model.Document as model;

use crate::head::Head;
use crate::relex::change::Change;
use crate::relex::counts::Relexed;

/// The change of a document's body by an edit of the document.
#[derive(Clone, Copy, Debug, PartialEq, Eq)]
pub struct BodyChange {
    /// Whether the edit starts after the head, and the head stays the same.
    pub keeps_head: bool,
    /// The change, in bytes from the start of the body.
    pub change: Change,
}

impl Head {
    /// Returns the change of the body by an edit of the document. `self` is the head of the text before the edit, and
    /// `now` is the head of the current text.
    ///
    /// If the edit starts after the head and the head stays the same, the change is the edit itself, in bytes from the
    /// start of the body. Otherwise it extends from the start of the body to the first offset after the edit at which
    /// both bodies have started, so no token of the body is kept before it.
    pub fn body_change(self, now: Head, edit: Change) -> BodyChange
        requires old_order { edit.start ≤ edit.old_end }
        requires new_order { edit.start ≤ edit.new_end }
        requires old_end { edit.old_end < 2 ^ 32 }
        requires new_end { edit.new_end < 2 ^ 32 }
        requires from { self.body < 2 ^ 32 }
        requires to { now.body < 2 ^ 32 }

        // Whether the head is kept, and how the body changes.
        ensures keeps { IsTrue result.keeps_head ↔ (self ≡ now) × (self.body ≤ edit.start) }
        ensures change { IsInBody result.keeps_head self.body now.body edit result.change }
        ensures body { (first : List ℕ → Token) (before insert text : List ℕ)
            → IsGrammar first → IsEditOf before edit insert text
            → IsHeadOf before self → IsHeadOf text now
            → IsBodyChange first before edit insert text result.keeps_head result.change }
    {
        let head = HeadChange::between(self, now, edit.start);
        BodyChange {
            keeps_head: head.keeps,
            change: head.body_change(edit),
        }
    }
}

/// The effect of an edit on the head of a document.
#[derive(Clone, Copy)]
pub(crate) struct HeadChange {
    /// The head before the edit.
    pub before: Head,
    /// The head after the edit.
    pub after: Head,
    /// Whether the edit starts after the head, and the head stays the same.
    pub keeps: bool,
}

impl HeadChange {
    /// Returns the effect of an edit that starts at `start`.
    #[tactic(auto, using(crate::specs::laws::Same::decided_head, std::proofs::lemmas::Grind::common_steps))]
    pub(crate) fn between(before: Head, after: Head, start: usize) -> HeadChange
        ensures before { result.before ≡ before }
        ensures after { result.after ≡ after }
        ensures keeps { IsTrue result.keeps ↔ (before ≡ after) × (before.body ≤ start) }
    {
        HeadChange {
            before,
            after,
            keeps: before.body <= start && before == after,
        }
    }

    /// Returns the change of the body. If `keeps` is true, this is the edit itself, in bytes from the start of the
    /// body. Otherwise the change extends from the start of the body to the first offset after the edit at which both
    /// bodies have started.
    pub(crate) fn body_change(self, edit: Change) -> Change
        requires old { edit.old_end < 2 ^ 32 }
        requires new { edit.new_end < 2 ^ 32 }
        requires from { self.before.body < 2 ^ 32 }
        requires to { self.after.body < 2 ^ 32 }
        requires kept { IsTrue self.keeps → (self.before.body ≤ edit.start)
            × (edit.start ≤ edit.old_end) × (edit.start ≤ edit.new_end) }
        ensures { result ≡ model.body_change self.keeps self.before.body self.after.body edit }
    {
        let (from, to) = (self.before.body, self.after.body);
        if self.keeps {
            return Change {
                start: edit.start - from,
                old_end: edit.old_end - from,
                new_end: edit.new_end - from,
            };
        }
        let past = from
            .saturating_sub(edit.old_end)
            .max(to.saturating_sub(edit.new_end));
        Change {
            start: 0,
            old_end: edit.old_end + past - from,
            new_end: edit.new_end + past - to,
        }
    }

    /// Converts the counts of the body to the counts of the document.
    pub(crate) fn document_counts(self, body: Relexed) -> Relexed
        requires front { body.kept_front < 2 ^ 33 }
        requires lexed { body.lexed < 2 ^ 33 }
        ensures { result ≡ model.counted self.keeps (length (model.tokens_of_head self.before))
            (length (model.tokens_of_head self.after)) body }
    {
        if self.keeps {
            Relexed {
                kept_front: self.before.count() + body.kept_front,
                ..body
            }
        } else {
            Relexed {
                lexed: self.after.count() + body.lexed,
                ..body
            }
        }
    }
}
