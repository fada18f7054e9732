//! Texts that are lexed in an edition.
ghost use Rattle.std.specs.Prelude.{◌≡◌, ◌+◌, IfOk, OnErr, OnOk, length};
ghost use Rattle.rustc_lexer.specs.Answers.{first_in, grammar_of};
ghost use Rattle.rustc_lexer.specs.Classes.{Fits};
ghost use Rattle.rustc_lexer.specs.LexedText.{edition_tokens_in, layout_in};
ghost use Rattle.rustc_lexer.specs.LanguageText.{newest};

use crate::edition::Edition;
use crate::entry::stepper::{Stepper, Steps};
use crate::head::Extent;
use crate::relex::lexed::Lexed;
use std::alloc::{AllocError, Global};

impl<E: Extent> Lexed<Steps, E> {
    /// Copies the text and lexes it in the newest edition. The text may have at most `u32::MAX` bytes.
    ///
    /// # Errors
    ///
    /// Returns an error if an allocation fails.
    pub fn new(alloc: Global, text: &str) -> Result<Lexed<Steps, E>, AllocError>
        requires fits { Fits text.now }
        ensures text { IfOk result (λ l. l.text ≡ text.now) }
        ensures from_scratch { IfOk result
            (λ l. l.tokens ≡ edition_tokens_in E.whole newest text.now) }
        ensures grammar { IfOk result
            (λ l. ⟦<Steps as Stepper>⟧.grammar l.stepper ≡ grammar_of newest) }
        ensures count { IfOk result
            (λ l. ⟦<Steps as Stepper>⟧.count l.stepper
            + length (layout_in E.whole (first_in newest) text.now).head
            ≡ length l.tokens) }
    {
        Lexed::new_in(alloc, text, Edition::NEWEST)
    }

    /// Copies the text and lexes it in the given edition. The text may have at most `u32::MAX` bytes.
    ///
    /// # Errors
    ///
    /// Returns an error if an allocation fails.
    pub fn new_in(
        alloc: Global,
        text: &str,
        edition: Edition,
    ) -> Result<Lexed<Steps, E>, AllocError>
        requires fits { Fits text.now }
        ensures text { IfOk result (λ l. l.text ≡ text.now) }
        ensures from_scratch { IfOk result
            (λ l. l.tokens ≡ edition_tokens_in E.whole edition text.now) }
        ensures grammar { IfOk result
            (λ l. ⟦<Steps as Stepper>⟧.grammar l.stepper ≡ grammar_of edition) }
        ensures count { IfOk result
            (λ l. ⟦<Steps as Stepper>⟧.count l.stepper
            + length (layout_in E.whole (first_in edition) text.now).head
            ≡ length l.tokens) }
    {
        Lexed::with(alloc, text, Steps::new_in(edition))
    }

    /// Returns the edition in which the text is lexed. Edits do not change it.
    pub fn edition(&self) -> Edition
        ensures grammar { ⟦<Steps as Stepper>⟧.grammar self.now.stepper ≡ grammar_of result }
        ensures from_scratch { self.now.tokens ≡ edition_tokens_in E.whole result self.now.text }
    {
        self.parts.stepper.edition()
    }

    /// Lexes the text again in another edition. The head is kept, since it is the same in all editions.
    ///
    /// # Errors
    ///
    /// Returns an error if an allocation fails. Text and tokens are then unchanged.
    pub fn set_edition(&mut self, edition: Edition) -> Result<(), AllocError>
        ensures text { self.new.text ≡ self.old.text }
        ensures from_scratch { OnOk result
            (self.new.tokens ≡ edition_tokens_in E.whole edition self.new.text) }
        ensures grammar { OnOk result
            (⟦<Steps as Stepper>⟧.grammar self.new.stepper ≡ grammar_of edition) }
        ensures count { OnOk result
            (⟦<Steps as Stepper>⟧.count self.new.stepper
            + length (layout_in E.whole (first_in edition) self.new.text).head
            ≡ length self.new.tokens) }
        ensures same { OnErr result (self.new ≡ self.old) }
    {
        self.set_stepper(Steps::new_in(edition))
    }
}
