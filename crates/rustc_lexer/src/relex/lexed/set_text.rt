//! Replaces a lexed text by one edit of the part that differs.
ghost use Rattle.std.specs.Prelude.{◌≡◌, List, Ok, OnOk, ℕ, length};
ghost use Rattle.rustc_lexer.specs.Classes.{Fits};
ghost use Rattle.rustc_lexer.specs.Edits.{IsNarrowest, all_kept};
ghost use Rattle.rustc_lexer.specs.LexedText.{HasStepCount, IsEdited, layout_in};

use crate::entry::stepper::Stepper;
use crate::head::Extent;
use crate::relex::counts::Relexed;
use crate::relex::diff::{common_prefix, common_suffix};
use crate::relex::lexed::Lexed;
use std::alloc::AllocError;

impl<S: Stepper, E: Extent> Lexed<S, E> {
    /// Replaces the text, and re-lexes only the part that differs. The new text may have at most `u32::MAX` bytes.
    ///
    /// The common prefix of both texts is stripped, then their common suffix, and the rest is applied as one
    /// [edit](Lexed::edit), whose counts are returned. If the texts are equal, all tokens are kept at the front.
    ///
    /// # Errors
    ///
    /// Returns an error if an allocation fails. Text and tokens are then unchanged.
    pub fn set_text(&mut self, text: &str) -> Result<Relexed, AllocError>
        requires fits { Fits text.now }
        ensures text { OnOk result (self.new.text ≡ text.now) }
        ensures same { self.old.text ≡ text.now
            → (self.new ≡ self.old) × (result ≡ Ok (all_kept (length self.old.tokens))) }
        ensures edit { (self.old.text ≡ text.now → ⊥) → (start stop : ℕ) × (insert : List ℕ)
            × IsNarrowest self.old.text text.now start stop insert
            × IsEdited (layout_in E.whole (S.grammar self.old.stepper).first) self.old start stop insert
            result self.new
            × HasStepCount (layout_in E.whole (S.grammar self.old.stepper).first) self.old.text start stop
            insert result (S.count self.old.stepper) (S.count self.new.stepper) }
        ensures grammar { S.grammar self.new.stepper ≡ S.grammar self.old.stepper }
    {
        let old = self.text();
        if old == text {
            return Ok(Relexed::all(self.tokens().len()));
        }
        let start = common_prefix(old, text);
        let back = common_suffix(old, text, start);
        let stop = old.len() - back;
        self.edit(start, stop, &text[start..text.len() - back])
    }
}
