//! Several edits of a lexed text at once. All their offsets refer to the current text.
ghost use Rattle.std.specs.Prelude.{◌≡◌, ◌+◌, ◌++◌, ◌^◌, ◌-◌, ◌<◌, ◌≤◌, [], IfErr, IfOk, Ok, OnOk, drop, length, min};
ghost use Rattle.std.specs.Prelude.{reverse};
ghost use Rattle.std.specs.Str.{IsUtf8};
ghost use Rattle.std.specs.String.{string_bytes};
ghost use Rattle.rustc_lexer.specs.declared.relex.edit_error.EditStop.{EditStop};
ghost use Rattle.rustc_lexer.specs.Edits.{IsBatch, AreInOrder, IsBatchStop, all_kept, apply_list, start_of_first};
ghost use Rattle.rustc_lexer.specs.Edits.{stop_of_last, batch_insert};
ghost use Rattle.rustc_lexer.specs.Classes.{Fits};
ghost use Rattle.rustc_lexer.specs.model.Document.{edit_change};
ghost use Rattle.rustc_lexer.specs.LexedText.{HasStepCount, IsEdited, layout_in};

use crate::entry::stepper::Stepper;
use crate::head::Extent;
use crate::relex::change::Change;
use crate::relex::counts::Relexed;
use crate::relex::edit::{Edit, contains_range};
use crate::relex::edit_error::EditStop;
use crate::relex::lexed::Lexed;
use crate::relex::lexed::parts::update;
use std::alloc::{AllocError, Global};

impl<S: Stepper, E: Extent> Lexed<S, E> {
    /// Applies several edits at once. All offsets refer to the current text. The edits must be in order and must not
    /// overlap, but they may touch.
    ///
    /// They are applied as one [edit](Lexed::edit), from the start of the first to the end of the last, and its counts
    /// are returned. The new text is the one that they produce one by one, from the last to the first. An empty list
    /// keeps all tokens at the front.
    ///
    /// # Errors
    ///
    /// Returns `Range` with the index of the first edit that is out of bounds, is not on character boundaries, or
    /// starts before the previous edit ends. Returns `TooLong` with the index of the last edit if the new text would be
    /// longer than `u32::MAX` bytes, and `Memory` with that index if an allocation fails. Text and tokens are then
    /// unchanged.
    pub fn edit_batch(&mut self, edits: &[Edit<'_>]) -> Result<Relexed, EditStop>
        ensures accepted { OnOk result (IsBatch self.old.text edits.now) }
        ensures none { edits.now ≡ []
            → (self.new ≡ self.old) × (result ≡ Ok (all_kept (length self.old.tokens))) }
        ensures edit { (edits.now ≡ [] → ⊥) → IsBatch self.old.text edits.now
            → IsEdited {E = EditStop} (layout_in E.whole (S.grammar self.old.stepper).first) self.old
            (start_of_first edits.now) (stop_of_last 0 edits.now)
            (batch_insert self.old.text (start_of_first edits.now) edits.now) result self.new }
        ensures grammar { S.grammar self.new.stepper ≡ S.grammar self.old.stepper }
        ensures count { (edits.now ≡ [] → ⊥) → IsBatch self.old.text edits.now
            → HasStepCount {E = EditStop} (layout_in E.whole (S.grammar self.old.stepper).first) self.old.text
            (start_of_first edits.now) (stop_of_last 0 edits.now)
            (batch_insert self.old.text (start_of_first edits.now) edits.now) result
            (S.count self.old.stepper) (S.count self.new.stepper) }
        ensures one_by_one { OnOk result (self.new.text ≡ apply_list self.old.text (reverse edits.now)) }
        ensures stop { IfErr result (λ stop. IsBatchStop stop self.old.text edits.now) }
        ensures same { (IsBatch self.old.text edits.now → ⊥) → self.new ≡ self.old }
    {
        let text = self.text();
        if edits.is_empty() {
            return Ok(Relexed::all(self.tokens().len()));
        }
        let edit = change_of(text, edits)?;
        let at = edits.len() - 1;
        let Ok(made) = edited_text(self.parts.alloc, text, edits, edit) else {
            return Err(EditStop::Memory { at });
        };
        let before = std::mem::replace(&mut self.parts.text, made);
        match update(&mut self.parts, edit) {
            Ok(counts) => Ok(counts),
            Err(_) => {
                self.parts.text = before;
                Err(EditStop::Memory { at })
            }
        }
    }
}

/// Returns the one edit that the list amounts to, or why the list is rejected.
fn change_of(text: &str, edits: &[Edit<'_>]) -> Result<Change, EditStop>
    requires some { edits.now ≡ [] → ⊥ }
    requires fits { Fits text.now }
    ensures valid { OnOk result (IsBatch text.now edits.now) }
    ensures change { IfOk result (λ edit. edit ≡ edit_change (start_of_first edits.now)
        (stop_of_last 0 edits.now) (batch_insert text.now (start_of_first edits.now) edits.now)) }
    ensures utf8 { OnOk result (IsUtf8 (batch_insert text.now (start_of_first edits.now) edits.now)) }
    ensures stop { IfErr result (λ stop. IsBatchStop stop text.now edits.now
        × (IsBatch text.now edits.now → ⊥)) }
{
    let mut change = Change {
        start: edits[0].start,
        old_end: 0,
        new_end: 0,
    };
    for (at, edit) in edits.iter().enumerate() {
        if edit.start < change.old_end || !contains_range(text, edit.start, edit.stop) {
            return Err(EditStop::Range { at });
        }
        change.new_end = saturating_len(change.new_end, edit.start - change.old_end, edit.insert);
        change.old_end = edit.stop;
    }
    let behind = text.len() - change.old_end;
    if change.new_end > u32::MAX as usize - behind {
        let at = edits.len() - 1;
        return Err(EditStop::TooLong { at });
    }
    Ok(change)
}

/// Returns the sum of `len`, `more` and the length of the text. It saturates at the maximum of `usize`.
fn saturating_len(len: usize, more: usize, text: &str) -> usize
    ensures sum { result ≡ min (2 ^ 64 - 1) (len + more + length text.now) }
    ensures utf8 { IsUtf8 text.now }
{
    len.saturating_add(more).saturating_add(text.len())
}

/// Returns the text after the edits, which amount to `edit`.
fn edited_text(
    alloc: Global,
    text: &str,
    edits: &[Edit<'_>],
    edit: Change,
) -> Result<String, AllocError>
    requires in_order { AreInOrder text.now 0 edits.now }
    requires stop { edit.old_end ≤ length text.now }
    requires short { edit.new_end < 2 ^ 33 }
    requires fits { Fits text.now }
    ensures { IfOk result (λ made. string_bytes made
        ≡ batch_insert text.now 0 edits.now ++ drop (stop_of_last 0 edits.now) text.now) }
{
    let mut made = String::new(alloc);
    made.reserve(edit.new_end + (text.len() - edit.old_end))?;
    let mut from = 0;
    for edit in edits {
        made.push_str(&text[from..edit.start])?;
        made.push_str(edit.insert)?;
        from = edit.stop;
    }
    made.push_str(&text[from..])?;
    Ok(made)
}
