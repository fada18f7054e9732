//! A text with its tokens, and the state that its edits need.
ghost use Rattle.std.specs.Prelude.{◌≡◌, ◌+◌, ◌++◌, IfOk, List, drop, length, ℕ};
ghost use Rattle.std.specs.Str.{IsCharBoundary};
ghost use Rattle.std.specs.String.{string_bytes};
ghost use Rattle.rustc_lexer.specs.Classes.{Fits};
ghost use Rattle.rustc_lexer.specs.model.Document as model;
ghost use Rattle.rustc_lexer.specs.Tokens.{tokens_by};
ghost use Rattle.rustc_lexer.specs.LexedText.{HasStepCount, IsEdited, layout_in};
ghost use Rattle.rustc_lexer.specs.model.Checkpoints.{AreBounds};

use crate::entry::stepper::Stepper;
use crate::head::{Extent, Head};
use crate::relex::body_change::HeadChange;
use crate::relex::change::Change;
use crate::relex::checkpoints::Checkpoints;
use crate::relex::counts::Relexed;
use crate::relex::lex_all::lex_all;
use crate::relex::replacement::lex_replacement;
use crate::token::Token;
use std::alloc::{AllocError, Global};
use std::marker::PhantomData;

/// A text with its tokens, and the state that its edits need.
#[derive(Drop)]
pub(crate) struct LexedParts<S: Stepper, E: Extent> {
    pub alloc: Global,
    pub extent: PhantomData<E>,
    pub text: String,
    pub tokens: Vec<Token>,
    pub stepper: S,
    /// The head of a whole document. A fragment has none.
    pub head: Head,
    /// Boundaries of the body's tokens, at which the search for the kept front can start.
    pub checkpoints: Checkpoints,
}

/// Re-lexes the part of the text that an edit changed, and updates tokens, head and checkpoints. Before the call, these
/// belong to the text before the edit. If an allocation fails, they are unchanged.
pub(crate) fn update<S: Stepper, E: Extent>(
    parts: &mut LexedParts<S, E>,
    edit: Change,
) -> Result<Relexed, AllocError>
    requires fits { Fits (string_bytes parts.old.text) }
    requires put { (before insert : List ℕ) × model.IsPut (layout_in E.whole) (S.grammar parts.old.stepper).first
        before insert edit (string_bytes parts.old.text)
        parts.old.tokens.items parts.old.head parts.old.checkpoints }
    ensures text { parts.new.text ≡ parts.old.text }
    ensures renewed { (before insert : List ℕ)
        → model.IsPut (layout_in E.whole) (S.grammar parts.old.stepper).first
        before insert edit (string_bytes parts.old.text)
        parts.old.tokens.items parts.old.head parts.old.checkpoints
        → let left = model.text_left result (string_bytes parts.new.text) before in
        model.AreKeptOf (layout_in E.whole) (S.grammar parts.new.stepper).first left
        parts.new.tokens.items parts.new.head parts.new.checkpoints
        × IsEdited (layout_in E.whole (S.grammar parts.old.stepper).first)
        (record { text = before; tokens = parts.old.tokens.items; stepper = parts.old.stepper })
        edit.start edit.old_end insert result
        (record { text = left; tokens = parts.new.tokens.items; stepper = parts.new.stepper })
        × HasStepCount (layout_in E.whole (S.grammar parts.old.stepper).first) before edit.start edit.old_end
        insert result (S.count parts.old.stepper) (S.count parts.new.stepper) }
    ensures grammar { S.grammar parts.new.stepper ≡ S.grammar parts.old.stepper }
{
    let made = parts.text.as_str();
    let now = E::find_head(made);
    let head = HeadChange::between(parts.head, now, edit.start);
    let text = &made[now.body..];
    let old_tokens = &parts.tokens.as_slice()[parts.head.count()..];
    let change = head.body_change(edit);
    let near = parts.checkpoints.nearest(change.start);
    let mut lexed_bounds = Checkpoints::new();
    let lexed = lex_replacement(
        parts.alloc,
        &mut parts.stepper,
        text,
        old_tokens,
        change,
        near,
        &mut lexed_bounds,
    )?;
    let checkpoints = lexed.checkpoints(&parts.checkpoints, &lexed_bounds, text.len());
    let counts = lexed.at.counts(old_tokens.len());
    lexed.splice_into(parts.alloc, &mut parts.tokens, head)?;
    parts.head = now;
    parts.checkpoints = checkpoints;
    Ok(head.document_counts(counts))
}

/// Returns the tokens of a text, and checkpoints in its body. The head is known, and the stepper lexes the body.
pub(crate) fn lex_body<S: Stepper>(
    alloc: Global,
    head: Head,
    stepper: &mut S,
    text: &str,
) -> Result<(Vec<Token>, Checkpoints), AllocError>
    requires fits { Fits text.now }
    requires body { IsCharBoundary text.now head.body }
    ensures tokens { IfOk result
        (λ r. r.0.items ≡ model.tokens_of_head head
        ++ tokens_by (S.grammar stepper.old).first (drop head.body text.now)) }
    ensures checkpoints { IfOk result
        (λ r. AreBounds (drop (length (model.tokens_of_head head)) r.0.items) r.1) }
    ensures count { IfOk result
        (λ r. S.count stepper.new + length (model.tokens_of_head head)
        ≡ S.count stepper.old + length r.0.items) }
    ensures grammar { S.grammar stepper.new ≡ S.grammar stepper.old }
{
    let mut tokens = Vec::new(alloc);
    head.push_to(&mut tokens)?;
    let checkpoints = lex_all(stepper, &text[head.body..], &mut tokens)?;
    Ok((tokens, checkpoints))
}
