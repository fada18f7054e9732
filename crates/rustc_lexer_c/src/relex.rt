//! Relexing: lexes only the part of an edited text that the edit changed.
ghost use Rattle.std.specs.Prelude.{◌≡◌, ◌≢◌, ◌↔◌, ◌<◌, ◌≤◌, List, ℕ, None, IfSome, length, map};
ghost use Rattle.std.specs.Str.{IsUtf8};
ghost use Rattle.rustc_lexer.specs.declared.token.Token.{Token};
ghost use Rattle.rustc_lexer.specs.Classes.{Fits};
ghost use Rattle.rustc_lexer.specs.LanguageCalls.{edition_of_year};
ghost use Rattle.rustc_lexer.specs.Relexer.{IsChange, IsMadeOf, IsUnderWay, CanContinue};
ghost use Rattle.rustc_lexer.specs.Locality.{IsGrammar};
ghost use Rattle.rustc_lexer_c.specs.Relex as spec;

use crate::status::{OK, Refusal, refuse, text_of, utf8_text_of, validate};
use crate::token::CToken;
use rustc_lexer::{Change, Edition, RelexState, Relexer, Steps, TextLen, TokenStart};

/// An applied edit, as offsets in bytes. It replaced the bytes from `start` up to `old_end` of the old text with the
/// bytes from `start` up to `new_end` of the current text.
#[repr(C)]
#[derive(Clone, Copy, Debug, PartialEq, Eq)]
pub struct CEdit {
    pub start: u32,
    pub old_end: u32,
    pub new_end: u32,
}

/// The stages of relexing: before the first call, while tokens are left to write, and when all are written.
const STAGE_BEGIN: usize = 0;

const STAGE_MORE: usize = 1;

const STAGE_DONE: usize = 2;

/// How far an edited text has been relexed.
#[repr(C)]
#[derive(Clone, Copy, Debug, PartialEq, Eq)]
pub struct CRelexing {
    /// The number of old tokens that are kept at the front. At stage 0: the index of any token boundary of the old
    /// text, at which the search for the front starts.
    pub kept_front: usize,
    /// The offset at which the tokens at the front end, in bytes.
    pub front_offset: usize,
    /// The number of tokens that all calls together have written.
    pub lexed: usize,
    /// At stage 2: the number of old tokens that are kept at the back.
    pub kept_back: usize,
    /// The offset in the old text at which the tokens at the back start.
    pub back_offset: usize,
    /// The offset in the current text at which the written tokens end. At stage 2 the tokens at the back start there.
    pub at: usize,
    /// 0 before the first call, 1 while tokens are left to write, 2 when all are written.
    pub stage: usize,
}

impl TextLen for CToken {
    ghost bytes = { λ token. token.len };

    fn len(&self) -> u32 {
        self.len
    }
}

/// Lexes the part of the current text that an edit changed. Writes the new tokens into the buffer, as many as there is
/// room for, and their number into `count`. They come between the old tokens that are kept at the front and the old
/// tokens that are kept at the back.
///
/// `old` contains the tokens of the text before the edit. Only their lengths are read. With any other tokens the call
/// is safe, but the result has no meaning.
#[unsafe(no_mangle)]
pub extern "C" fn rustc_lexer_relex(
    text: &[u8],
    old: &[CToken],
    edit: &CEdit,
    edition: u32,
    relexing: &mut CRelexing,
    buffer: &mut [CToken],
    count: &mut usize,
) -> u32
    ensures { spec.Relexes text.now old.now edit.now edition relexing.old relexing.new
        buffer.old buffer.new count.new result }
{
    validate!(text_of(text), 0, count);
    rustc_lexer_relex_unchecked(text, old, edit, edition, relexing, buffer, count)
}

/// Like `rustc_lexer_relex`, but does not check that the text is UTF-8. `rustc_lexer_check` must have accepted it.
#[unsafe(no_mangle)]
pub extern "C" fn rustc_lexer_relex_unchecked(
    text: &[u8],
    old: &[CToken],
    edit: &CEdit,
    edition: u32,
    relexing: &mut CRelexing,
    buffer: &mut [CToken],
    count: &mut usize,
) -> u32
    requires utf8 { IsUtf8 text.now }
    ensures { spec.Relexes text.now old.now edit.now edition relexing.old relexing.new
        buffer.old buffer.new count.new result }
{
    let text = validate!(utf8_text_of(text), 0, count);
    let Some(edition) = edition_of(edition) else {
        return refuse(Refusal::InvalidEdition, 0, count);
    };
    let Some(mut relex) = relex_at(text, old, change_of(edit), relexing) else {
        return refuse(Refusal::InvalidEdit, 0, count);
    };
    *count = relex.fill(&mut Steps::new_in(edition), buffer);
    *relexing = relexing_numbers(&relex);
    OK
}

/// Returns the edition with this year, or `None` if there is none.
pub(crate) fn edition_of(year: u32) -> Option<Edition>
    ensures { result ≡ edition_of_year year }
{
    Edition::try_from(u16::try_from(year).ok()?).ok()
}

/// Returns the edit as a `Change`.
pub(crate) fn change_of(edit: &CEdit) -> Change
    ensures { result ≡ spec.change_of edit.now }
{
    Change {
        start: edit.start as usize,
        old_end: edit.old_end as usize,
        new_end: edit.new_end as usize,
    }
}

/// Starts or resumes relexing. Returns `None` if the change cannot have resulted in the text, or if no call can have
/// left these numbers.
fn relex_at<'a>(
    text: &'a str,
    old: &'a [CToken],
    change: Change,
    relexing: &CRelexing,
) -> Option<Relexer<'a, CToken>>
    requires fits { Fits text.now }
    ensures none { result ≡ None
        ↔ ¬ (IsChange text.now change × spec.MayRelex text.now (length old.now) relexing.now) }
    ensures some { IfSome result (λ r. (r.text ≡ text.now)
        × (r.lengths ≡ map (λ (t : CToken). t.len) old.now) × (r.change ≡ change)
        × (r.at.lexed ≡ spec.lexed_before relexing.now)
        × (relexing.now.stage ≢ spec.STAGE_BEGIN → r.at.front ≡ spec.front_of relexing.now)
        × ((first : List ℕ → Token) (before insert : List ℕ) → IsGrammar first
        → IsMadeOf first before (map (λ (t : CToken). t.len) old.now) change insert text.now
        → spec.IsPassed first before change text.now (length old.now) relexing.now
        → IsUnderWay first before change text.now r.at)) }
{
    if relexing.stage == STAGE_BEGIN {
        return Relexer::begin(text, old, change, front_of(relexing));
    }
    let Some(state) = state_of(relexing, old.len()) else {
        return None;
    };
    Relexer::resume(text, old, change, state)
}

/// Returns the token boundary in the fields of the front.
fn front_of(relexing: &CRelexing) -> TokenStart
    ensures { result ≡ spec.front_of relexing.now }
{
    TokenStart {
        index: relexing.kept_front,
        offset: relexing.front_offset,
    }
}

/// Returns the state with these numbers, or `None` if fewer old tokens exist than are kept at the back.
fn state_of(relexing: &CRelexing, old_count: usize) -> Option<RelexState>
    ensures none { result ≡ None → old_count < relexing.now.kept_back }
    ensures some { IfSome result (λ state. (relexing.now.kept_back ≤ old_count)
        × (state ≡ spec.relexing_of old_count relexing.now)) }
{
    if relexing.kept_back > old_count {
        return None;
    }
    Some(RelexState {
        front: front_of(relexing),
        lexed: relexing.lexed,
        back: TokenStart {
            index: old_count - relexing.kept_back,
            offset: relexing.back_offset,
        },
        at: relexing.at,
        met: relexing.stage == STAGE_DONE,
    })
}

/// Returns the state of relexing as numbers.
fn relexing_numbers(relex: &Relexer<'_, CToken>) -> CRelexing
    ensures numbers { result
        ≡ spec.numbers_of relex.now.text (length relex.now.lengths) relex.now.at }
    ensures can_continue { CanContinue relex.now.text (length relex.now.lengths) relex.now.at }
{
    let state = relex.state();
    CRelexing {
        kept_front: state.front.index,
        front_offset: state.front.offset,
        lexed: state.lexed,
        kept_back: relex.counts().kept_back,
        back_offset: state.back.offset,
        at: state.at,
        stage: if relex.is_done() {
            STAGE_DONE
        } else {
            STAGE_MORE
        },
    }
}
