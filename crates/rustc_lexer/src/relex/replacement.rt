//! The tokens that replace old ones after an edit.
ghost use Rattle.std.specs.Prelude.{◌≡◌, ◌+◌, ◌^◌, ◌<◌, ◌≤◌, ◌++◌, IfOk, IfErr, OnOk, OnErr, if◌then◌else◌, List, ℕ};
ghost use Rattle.std.specs.Prelude.{drop, length, take};
ghost use Rattle.std.specs.List.{All};
ghost use Rattle.rustc_lexer.specs.declared.relex.counts.Relexed.{Relexed};
ghost use Rattle.rustc_lexer.specs.{Token};
ghost use Rattle.rustc_lexer.specs.Classes.{IsText};
ghost use Rattle.rustc_lexer.specs.Tokens.{tokens_by};
ghost use Rattle.rustc_lexer.specs.Edits.{IsRelexed, fragment_by};
ghost use Rattle.rustc_lexer.specs.Relexer.{CanContinue, IsChange, known};
ghost use Rattle.rustc_lexer.specs.model.Checkpoints.{AreBounds, IsMovable, IsReplaced, end_of};
ghost use Rattle.rustc_lexer.specs.model.Relexer.{ForEachOldText, IsLexed};
ghost use Rattle.rustc_lexer.specs.model.Document as model;

use crate::entry::stepper::Stepper;
use crate::relex::body_change::HeadChange;
use crate::relex::boundary::TokenStart;
use crate::relex::change::Change;
use crate::relex::checkpoints::Checkpoints;
use crate::relex::lex_all::{BUFFER_LEN, make_room};
use crate::relex::relexer::{RelexState, Relexer};
use crate::token::{Token, TokenKind};
use std::alloc::{AllocError, Global};

/// The tokens that replace old ones after an edit.
#[derive(Drop)]
pub(crate) struct Replacement {
    pub tokens: Vec<Token>,
    /// The old tokens from `at.front` up to `at.back` are replaced.
    pub at: RelexState,
}

/// Lexes the text from the end of the kept front until it meets the old tokens. The search for the front starts at
/// `near`. The ends of the blocks that were lexed become checkpoints in `lexed_bounds`.
pub(crate) fn lex_replacement<S: Stepper>(
    alloc: Global,
    stepper: &mut S,
    text: &str,
    old_tokens: &[Token],
    change: Change,
    near: TokenStart,
    lexed_bounds: &mut Checkpoints,
) -> Result<Replacement, AllocError>
    requires is_text { IsText text.now }
    requires change { IsChange text.now change }

    // The stepper keeps its grammar.
    ensures grammar { S.grammar stepper.new ≡ S.grammar stepper.old }

    // The new tokens, and which old tokens they replace.
    ensures lexed { IfOk result
        (λ r. ForEachOldText (S.grammar stepper.old).first text.now old_tokens.now change near
        (λ before insert. IsLexed (S.grammar stepper.old).first before change text.now r.tokens.items r.at)) }
    ensures bounds { IfOk result
        (λ _. ForEachOldText (S.grammar stepper.old).first text.now old_tokens.now change near
        (λ before insert. AreBounds (tokens_by (S.grammar stepper.old).first text.now) lexed_bounds.old
        → AreBounds (tokens_by (S.grammar stepper.old).first text.now) lexed_bounds.new)) }
    ensures can_continue { IfOk result (λ r. CanContinue text.now (length old_tokens.now) r.at) }

    // The number of steps, even if an allocation fails.
    ensures count { IfOk result
        (λ r. S.count stepper.new ≡ S.count stepper.old + length r.tokens.items) }
    ensures rose { S.count stepper.old ≤ S.count stepper.new }
    ensures few { IfErr result
        (λ _. ForEachOldText (S.grammar stepper.old).first text.now old_tokens.now change near
        (λ before insert. (r : Relexed)
        → IsRelexed (fragment_by (S.grammar stepper.old).first) before change.start change.old_end insert r
        → S.count stepper.new ≤ S.count stepper.old + r.lexed)) }
{
    let mut tokens = Vec::new(alloc);
    let mut relex = Relexer::begin_valid(text, old_tokens, change, near);
    let Some(token) = relex.next(stepper) else {
        return Ok(Replacement {
            tokens,
            at: relex.state(),
        });
    };
    tokens.push(token)?;
    let mut buffer = [Token {
        kind: TokenKind::Eof,
        len: 0,
    }; BUFFER_LEN];
    'left: while !relex.is_done() {
        let count = relex.fill(stepper, &mut buffer);
        tokens.extend_from_slice(&buffer[..count])?;
        lexed_bounds.remember(end_of(relex.state()), text.len());
    }
    Ok(Replacement {
        tokens,
        at: relex.state(),
    })
}

/// Returns the end of the last token that was lexed.
fn end_of(at: RelexState) -> TokenStart
    requires small { known at < 2 ^ 64 }
    ensures { result ≡ end_of at }
{
    TokenStart {
        index: at.front.index + at.lexed,
        offset: at.at,
    }
}

impl Replacement {
    /// Returns the checkpoints of the new text, which has `len` bytes. `old` has the checkpoints of the text before the
    /// edit. The end of the kept front becomes a checkpoint, and so do the boundaries in a long run of lexed tokens.
    pub(crate) fn checkpoints(
        &self,
        old: &Checkpoints,
        lexed_bounds: &Checkpoints,
        len: usize,
    ) -> Checkpoints
        requires small { known self.now.at < 2 ^ 64 }
        requires movable { All (IsMovable self.now.at.back (end_of self.now.at)) old.now.bounds }
        ensures { (before after : List Token)
            → IsReplaced before after self.now.at.front self.now.at.back (end_of self.now.at)
            → AreBounds before old.now → AreBounds after lexed_bounds.now → AreBounds after result }
    {
        let at = self.at;
        let mut moved = old.after(at.front, at.back, end_of(at));
        if at.lexed <= BUFFER_LEN {
            moved.remember(at.front, len);
            return moved;
        }
        let mut all = moved.joined(lexed_bounds, len);
        if at.front.index == 0 {
            return all;
        }
        all.remember(at.front, len);
        all
    }

    /// Replaces the old tokens with the new ones, and the tokens of the head unless `head.keeps` is true. If an
    /// allocation fails, nothing changes.
    #[tactic(auto, using(crate::proofs::lemmas::edits::WholeEdits::put_behind, std::proofs::lemmas::Grind::common_steps))]
    pub(crate) fn splice_into(
        self,
        alloc: Global,
        tokens: &mut Vec<Token>,
        head: HeadChange,
    ) -> Result<(), AllocError>
        requires order { self.at.front.index ≤ self.at.back.index }
        requires inside { length (model.tokens_of_head head.before) + self.at.back.index
            ≤ length tokens.old.items }
        ensures put { OnOk result
            (let old = length (model.tokens_of_head head.before) in
            tokens.new.items
            ≡ (if head.keeps then take old tokens.old.items else model.tokens_of_head head.after)
            ++ (take self.at.front.index (drop old tokens.old.items)
            ++ (self.tokens.items ++ drop self.at.back.index (drop old tokens.old.items)))) }
        ensures same { OnErr result (tokens.new.items ≡ tokens.old.items) }
    {
        let old_count = head.before.count();
        let from = old_count + self.at.front.index;
        let to = old_count + self.at.back.index;
        if head.keeps {
            return replace(tokens, from, to, self.tokens);
        }
        let mut all = Vec::new(alloc);
        head.after.push_to(&mut all)?;
        all.extend_from_slice(&tokens.as_slice()[old_count..from])?;
        all.extend_from_slice(self.tokens.as_slice())?;
        replace(tokens, 0, to, all)
    }
}

/// Replaces the tokens `from..to` with the tokens in `with`. It allocates at most once, only if the list has no room,
/// and before it changes anything. If the list keeps no token and has to grow, `with` becomes the list and nothing is
/// copied.
fn replace(
    list: &mut Vec<Token>,
    from: usize,
    to: usize,
    with: Vec<Token>,
) -> Result<(), AllocError>
    requires from_le_to { from ≤ to }
    requires to_inside { to ≤ length list.old.items }
    ensures replaced { OnOk result
        (list.new.items ≡ take from list.old.items ++ (with.items ++ drop to list.old.items)) }
    ensures same { OnErr result (list.new.items ≡ list.old.items) }
{
    let old_len = list.len();
    if to - from == old_len && with.len() > old_len {
        *list = with;
        return Ok(());
    }
    if with.len() == to - from {
        overwrite(list.as_mut_slice(), from, with.as_slice());
        return Ok(());
    }
    let new_len = old_len - (to - from) + with.len();
    if new_len > old_len {
        let filler = Token {
            kind: TokenKind::Eof,
            len: 0,
        };
        make_room(list, new_len - old_len, 0, 0)?;
        list.resize(new_len, filler)?;
    }
    list.copy_within(to..old_len, from + with.len());
    list.truncate(new_len);
    overwrite(list.as_mut_slice(), from, with.as_slice());
    Ok(())
}

/// Overwrites the tokens from index `from` on with the given ones.
fn overwrite(all: &mut [Token], from: usize, with: &[Token])
    requires { from + length with.now ≤ length all.old }
    ensures { all.new ≡ take from all.old ++ (with.now ++ drop (from + length with.now) all.old) }
{
    all[from..from + with.len()].copy_from_slice(with);
}
