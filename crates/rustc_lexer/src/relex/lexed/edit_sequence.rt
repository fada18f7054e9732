//! Several edits of a lexed text, one after another.
ghost use Rattle.std.specs.Prelude.{◌≡◌, ◌+◌, ◌-◌, ◌^◌, ◌<◌, ◌≤◌, IfErr, IfOk, OnOk, length, min, take};
ghost use Rattle.rustc_lexer.specs.Edits.{stop_at};
ghost use Rattle.rustc_lexer.specs.LexedText.{HaveStepCounts, AreKeptThrough, AreApplied, layout_in, reason};
ghost use Rattle.rustc_lexer.specs.Partition.{tokens_in};
ghost use Rattle.rustc_lexer.specs.model.EditSequence.{AreKeptTo};

use crate::entry::stepper::Stepper;
use crate::head::Extent;
use crate::relex::counts::Relexed;
use crate::relex::edit::{Edit, accepts, contains_range};
use crate::relex::edit_error::{EditSequenceError, EditStop};
use crate::relex::lexed::Lexed;

/// How many edits of a list were applied, and the minimum numbers of tokens that they kept at the front and at the
/// back.
#[derive(Clone, Copy)]
struct AppliedCounts {
    count: usize,
    front: usize,
    back: usize,
}

impl AppliedCounts {
    /// Adds an edit with these counts.
    fn more(self, counts: Relexed) -> AppliedCounts
        requires { self.count < 2 ^ 63 }
        ensures count { result.count ≡ self.count + 1 }
        ensures front { result.front ≡ min self.front counts.kept_front }
        ensures back { result.back ≡ min self.back counts.kept_back }
    {
        AppliedCounts {
            count: self.count + 1,
            front: self.front.min(counts.kept_front),
            back: self.back.min(counts.kept_back),
        }
    }

    /// Returns the counts of the whole list. There were `old_len` tokens before it, and there are `len` after it.
    fn counts(self, old_len: usize, len: usize) -> Relexed
        requires old { self.front ≤ old_len }
        requires new { self.front ≤ len }
        ensures front { result.kept_front ≡ self.front }
        ensures back { result.kept_back ≡ min self.back (min len old_len - self.front) }
        ensures all { result.kept_front + result.lexed + result.kept_back ≡ len }
    {
        let kept_back = self.back.min(len.min(old_len) - self.front);
        Relexed {
            kept_front: self.front,
            lexed: len - self.front - kept_back,
            kept_back,
        }
    }
}

impl<S: Stepper, E: Extent> Lexed<S, E> {
    /// Applies the edits in order, each to the text that the edits before it leave, and stops at the first edit that
    /// fails.
    ///
    /// # Errors
    ///
    /// Returns which edit failed first, and why. The edits before it have been applied.
    pub fn edit_all(&mut self, edits: &[Edit<'_>]) -> Result<(), EditStop>
        ensures made { AreApplied (layout_in E.whole (S.grammar self.old.stepper).first) self.old edits.now
            result self.new }
        ensures grammar { S.grammar self.new.stepper ≡ S.grammar self.old.stepper }
        ensures count { HaveStepCounts (layout_in E.whole (S.grammar self.old.stepper).first) self.old.text
            edits.now result (S.count self.old.stepper) (S.count self.new.stepper) }
    {
        match self.edit_sequence(edits) {
            Ok(_) => Ok(()),
            Err(stopped) => Err(stopped.stop),
        }
    }

    /// Applies the edits like [`edit_all`](Lexed::edit_all). Returns how many tokens all of them kept at the front and
    /// at the back, and how many tokens are now in between. An empty list keeps all tokens at the front.
    ///
    /// # Errors
    ///
    /// Returns which edit failed first, why, and which tokens the edits before it kept. Those edits have been applied.
    pub fn edit_sequence(&mut self, edits: &[Edit<'_>]) -> Result<Relexed, EditSequenceError>
        ensures made { AreApplied (layout_in E.whole (S.grammar self.old.stepper).first) self.old edits.now
            (reason result) self.new }
        ensures grammar { S.grammar self.new.stepper ≡ S.grammar self.old.stepper }
        ensures count { HaveStepCounts (layout_in E.whole (S.grammar self.old.stepper).first) self.old.text
            edits.now (reason result) (S.count self.old.stepper) (S.count self.new.stepper) }
        ensures kept { IfOk result (AreKeptThrough (layout_in E.whole (S.grammar self.old.stepper).first)
            self.old edits.now self.new) }
        ensures stopped { IfErr result (λ stopped. AreKeptThrough
            (layout_in E.whole (S.grammar self.old.stepper).first) self.old
            (take (stop_at stopped.stop) edits.now) self.new stopped.relexed) }
    {
        let old_len = self.tokens().len();
        let mut made = AppliedCounts {
            count: 0,
            front: old_len,
            back: old_len,
        };
        let all = self.make(edits, &mut made);
        let relexed = made.counts(old_len, self.tokens().len());
        match all {
            Ok(()) => Ok(relexed),
            Err(stop) => Err(EditSequenceError { stop, relexed }),
        }
    }

    /// Applies the edits, and counts them in `made`.
    fn make(&mut self, edits: &[Edit<'_>], made: &mut AppliedCounts) -> Result<(), EditStop>
        requires none { made.old ≡ (record {
          count = 0;
          front = length self.old.tokens;
          back = length self.old.tokens;
        }) }
        requires from_scratch { self.old.tokens
            ≡ tokens_in (layout_in E.whole (S.grammar self.old.stepper).first self.old.text) }
        ensures made { AreApplied (layout_in E.whole (S.grammar self.old.stepper).first) self.old edits.now
            result self.new }
        ensures grammar { S.grammar self.new.stepper ≡ S.grammar self.old.stepper }
        ensures count { HaveStepCounts (layout_in E.whole (S.grammar self.old.stepper).first) self.old.text
            edits.now result (S.count self.old.stepper) (S.count self.new.stepper) }
        ensures kept { AreKeptTo (layout_in E.whole (S.grammar self.old.stepper).first) self.old edits.now
            made.new self.new }
        ensures all { OnOk result (made.new.count ≡ length edits.now) }
        ensures stop { IfErr result (λ stop. stop_at stop ≡ made.new.count) }
    {
        'list: while made.count < edits.len() {
            let at = made.count;
            let edit = edits[at];
            let text = self.text();
            if !accepts(text, edit.start, edit.stop, edit.insert) {
                return Err(if contains_range(text, edit.start, edit.stop) {
                    EditStop::TooLong { at }
                } else {
                    EditStop::Range { at }
                });
            }
            match self.edit(edit.start, edit.stop, edit.insert) {
                Ok(counts) => *made = made.more(counts),
                Err(_) => return Err(EditStop::Memory { at }),
            }
        }
        Ok(())
    }
}
