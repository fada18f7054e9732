//! Incrementally lexed texts: `LexedText` for a fragment of a file, `LexedDocument` for a whole file.
ghost use Rattle.std.specs.Prelude.{◌≡◌, ◌+◌, ◌↔◌, IfOk, IsTrue, OnErr, OnOk, length};
ghost use Rattle.std.specs.String.{string_bytes};
ghost use Rattle.rustc_lexer.specs.Classes.{Fits, IsText};
ghost use Rattle.rustc_lexer.specs.Edits.{IsEdit};
ghost use Rattle.rustc_lexer.specs.LexedText.{HasStepCount, IsEdited, layout_in};
ghost use Rattle.rustc_lexer.specs.Partition.{tokens_in};

use crate::entry::stepper::Stepper;
use crate::head::{Document, Extent, Fragment};
use crate::relex::change::Change;
use crate::relex::counts::Relexed;
use crate::relex::edit::{accepts, apply_in_place};
use crate::relex::lexed::parts::{LexedParts, lex_body, update};
use crate::token::Token;
use std::alloc::{AllocError, Global};
use std::marker::{Model, PhantomData};

mod document;
mod edit_batch;
mod edit_sequence;
mod in_edition;
mod look_up;
mod parts;
mod set_text;
mod settled;

/// A text with its tokens, which are kept up to date as it is edited, and with the stepper that lexed them.
///
/// After each edit, the tokens equal a full re-lex of the current text. An edit lexes from the first token that ends
/// less than two characters before it, up to the offset at which old and new tokens meet.
#[derive(Drop)]
pub struct Lexed<S: Stepper, E: Extent> {
    parts: LexedParts<S, E>,
}

/// A fragment of a file, with tokens that are kept up to date as it is edited. It has no head: a shebang line or a
/// frontmatter is lexed as code.
pub type LexedText<S> = Lexed<S, Fragment>;

/// A whole file, with tokens that are kept up to date as it is edited.
///
/// Byte order mark, shebang line and frontmatter are the *head*. The tokens start after the byte order mark and the
/// shebang line, and a frontmatter is one token. An edit after the head that does not change the head lexes few tokens.
/// Any other edit also lexes all tokens before it. Each edit finds the head again, so a frontmatter can appear,
/// disappear or end elsewhere.
///
/// ```ignore
/// let mut lexed = LexedDocument::new(alloc, "#!/bin/sh\n---cargo\n---\nfn")?;
/// let end = lexed.text().len();
/// if lexed.accepts(end, end, "x") {
///     let counts = lexed.edit(end, end, "x")?;
///     assert_eq!((counts.kept_front, counts.lexed, counts.kept_back), (3, 1, 0));
/// }
/// ```
pub type LexedDocument<S> = Lexed<S, Document>;

impl<S: Stepper, E: Extent> Model for Lexed<S, E> {
    ghost use Rattle.std.specs.String.{string_bytes};
    ghost use Rattle.rustc_lexer.specs.LexedText.{LexedModel, layout_in};
    ghost use Rattle.rustc_lexer.specs.model.Document.{AreKeptOf};

    ghost Value = { LexedModel S };

    ghost view = { λ a. record {
      text = string_bytes a.parts.text;
      tokens = a.parts.tokens.items;
      stepper = a.parts.stepper;
    } };

    ghost invariant = { λ a. AreKeptOf (layout_in E.whole) (S.grammar a.parts.stepper).first (string_bytes a.parts.text)
        a.parts.tokens.items a.parts.head a.parts.checkpoints };
}

impl<S: Stepper, E: Extent> Lexed<S, E> {
    /// Copies the text and lexes it, like [`with_string`](Lexed::with_string).
    pub fn with(alloc: Global, text: &str, stepper: S) -> Result<Lexed<S, E>, AllocError>
        requires fits { Fits text.now }
        ensures text { IfOk result (λ l. l.text ≡ text.now) }
        ensures from_scratch { IfOk result
            (λ l. l.tokens ≡ tokens_in (layout_in E.whole (S.grammar l.stepper).first text.now)) }
        ensures grammar { IfOk result (λ l. S.grammar l.stepper ≡ S.grammar stepper) }
        ensures count { IfOk result
            (λ l. S.count l.stepper + length (layout_in E.whole (S.grammar l.stepper).first text.now).head
            ≡ S.count stepper + length l.tokens) }
    {
        Lexed::with_string(alloc, String::from_str(alloc, text)?, stepper)
    }

    /// Lexes the text, taking ownership of it without copying it. The text may have at most `u32::MAX` bytes.
    ///
    /// The stepper lexes everything after the head of a document, one step for each token, and is kept for later edits.
    ///
    /// # Errors
    ///
    /// Returns an error if an allocation fails.
    pub fn with_string(alloc: Global, text: String, stepper: S) -> Result<Lexed<S, E>, AllocError>
        requires fits { Fits (string_bytes text) }
        ensures text { IfOk result (λ l. l.text ≡ string_bytes text) }
        ensures from_scratch { IfOk result
            (λ l. l.tokens ≡ tokens_in (layout_in E.whole (S.grammar l.stepper).first (string_bytes text))) }
        ensures grammar { IfOk result (λ l. S.grammar l.stepper ≡ S.grammar stepper) }
        ensures count { IfOk result
            (λ l. S.count l.stepper + length
            (layout_in E.whole (S.grammar l.stepper).first (string_bytes text)).head
            ≡ S.count stepper + length l.tokens) }
    {
        let mut stepper = stepper;
        let head = E::find_head(text.as_str());
        let (tokens, checkpoints) = lex_body(alloc, head, &mut stepper, text.as_str())?;
        Ok(Lexed {
            parts: LexedParts {
                alloc,
                extent: PhantomData,
                text,
                tokens,
                stepper,
                head,
                checkpoints,
            },
        })
    }

    /// Returns the text.
    pub fn text(&self) -> &str
        ensures text { result.now ≡ self.now.text }
        ensures fits { Fits result.now }
    {
        self.parts.text.as_str()
    }

    /// Returns the tokens of the text, in order. A byte order mark and a shebang line are not tokens.
    pub fn tokens(&self) -> &[Token]
        ensures tokens { result.now ≡ self.now.tokens }
        ensures from_scratch { result.now
            ≡ tokens_in (layout_in E.whole (S.grammar self.now.stepper).first self.now.text) }
    {
        self.parts.tokens.as_slice()
    }

    /// Returns the stepper that lexed the tokens.
    pub fn stepper(&self) -> &S
        ensures { result.now ≡ self.now.stepper }
    {
        &self.parts.stepper
    }

    /// Returns the text, without copying it, and drops its tokens.
    pub fn into_string(self) -> String
        ensures { string_bytes result ≡ self.text }
    {
        let Lexed { parts } = self;
        let LexedParts { text, .. } = parts;
        text
    }

    /// Frees memory that edits have left unused, like `Vec::shrink_to_fit`. Text, tokens and stepper do not change. If
    /// an allocation fails, the unused memory is kept.
    pub fn shrink_to_fit(&mut self)
        ensures { self.new ≡ self.old }
    {
        self.parts.text.shrink_to_fit();
        self.parts.tokens.shrink_to_fit();
    }

    /// Lexes the text again with another stepper. The head of a document is kept.
    ///
    /// # Errors
    ///
    /// Returns an error if an allocation fails. Text and tokens are then unchanged.
    pub fn set_stepper(&mut self, stepper: S) -> Result<(), AllocError>
        ensures text { self.new.text ≡ self.old.text }
        ensures is_text { IsText self.new.text }
        ensures from_scratch { self.new.tokens
            ≡ tokens_in (layout_in E.whole (S.grammar self.new.stepper).first self.new.text) }
        ensures grammar { OnOk result (S.grammar self.new.stepper ≡ S.grammar stepper) }
        ensures count { OnOk result
            (S.count self.new.stepper
            + length (layout_in E.whole (S.grammar stepper).first self.new.text).head
            ≡ S.count stepper + length self.new.tokens) }
        ensures same { OnErr result (self.new ≡ self.old) }
    {
        let mut stepper = stepper;
        let text = self.parts.text.as_str();
        let (tokens, checkpoints) = lex_body(
            self.parts.alloc,
            self.parts.head,
            &mut stepper,
            text,
        )?;
        self.parts.tokens = tokens;
        self.parts.stepper = stepper;
        self.parts.checkpoints = checkpoints;
        Ok(())
    }

    /// Replaces the text and lexes the new one from scratch with the stepper, whatever the old text and tokens are. If
    /// an allocation fails, both texts are left as they were.
    pub(crate) fn lex_from_scratch(&mut self, text: &mut String) -> Result<(), AllocError>
        requires fits { Fits (string_bytes text.old) }
        ensures text { OnOk result (self.new.text ≡ string_bytes text.old) }
        ensures from_scratch { self.new.tokens
            ≡ tokens_in (layout_in E.whole (S.grammar self.new.stepper).first self.new.text) }
        ensures grammar { S.grammar self.new.stepper ≡ S.grammar self.old.stepper }
        ensures same { OnErr result ((self.new.text ≡ self.old.text) × (text.new ≡ text.old)) }
    {
        let stepper = &mut self.parts.stepper;
        let now = E::find_head(text.as_str());
        let (lexed, checkpoints) = lex_body(self.parts.alloc, now, stepper, text.as_str())?;
        self.parts.text = std::mem::replace(text, String::new(self.parts.alloc));
        self.parts.tokens = lexed;
        self.parts.head = now;
        self.parts.checkpoints = checkpoints;
        Ok(())
    }

    /// Returns whether an edit is valid: its range is in bounds and on character boundaries, and the new text has at
    /// most `u32::MAX` bytes.
    pub fn accepts(&self, start: usize, stop: usize, insert: &str) -> bool
        ensures { IsTrue result ↔ IsEdit self.now.text start stop insert.now }
    {
        accepts(self.parts.text.as_str(), start, stop, insert)
    }

    /// Replaces the bytes in `start..stop` with `insert`. The edit must be [accepted](Lexed::accepts).
    ///
    /// Returns how many tokens it kept at the front, how many it lexed, and how many it kept at the back. The tokens of
    /// the head are counted too: an edit after an unchanged head keeps them, and any other edit counts them as lexed.
    ///
    /// # Errors
    ///
    /// Returns an error if an allocation fails. Text and tokens are then unchanged.
    pub fn edit(&mut self, start: usize, stop: usize, insert: &str) -> Result<Relexed, AllocError>
        requires accepted { IsEdit self.old.text start stop insert.now }
        ensures edited { IsEdited (layout_in E.whole (S.grammar self.old.stepper).first) self.old start stop
            insert.now result self.new }
        ensures grammar { S.grammar self.new.stepper ≡ S.grammar self.old.stepper }
        ensures count { HasStepCount (layout_in E.whole (S.grammar self.old.stepper).first) self.old.text start
            stop insert.now result (S.count self.old.stepper) (S.count self.new.stepper) }
    {
        let removed = String::from_str(self.parts.alloc, &self.parts.text[start..stop])?;
        self.parts.text.reserve(insert.len())?;
        apply_in_place(&mut self.parts.text, start, stop, insert);
        let edit = Change {
            start,
            old_end: stop,
            new_end: start + insert.len(),
        };
        match update(&mut self.parts, edit) {
            Ok(counts) => Ok(counts),
            Err(refused) => {
                apply_in_place(&mut self.parts.text, start, edit.new_end, removed.as_str());
                Err(refused)
            }
        }
    }
}
