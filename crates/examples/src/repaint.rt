//! Repaints the tokens of a text that an edit changed.
ghost use Rattle.std.specs.Prelude.{◌≡◌, ◌+◌, ◌-◌, OnOk, OnErr, IfOk, length};
ghost use Rattle.std.specs.Fmt.{WritesInCalls};
ghost use Rattle.rustc_lexer.specs.Edits.{IsEdit, apply};
ghost use Rattle.rustc_lexer.specs.LexedText.{pieces_from};
ghost use Rattle.examples.specs.Repaint.{changed, close_style, open_style, shown_after, styled};

use rustc_lexer::{LexedText, Relexed, Stepper, TokenKind};
use std::alloc::AllocError;
use std::fmt;

/// Applies an edit, which must be accepted. Afterwards only the tokens that [`repaint`] paints have to be painted
/// again: tokens before them stay, and tokens after them move by as many bytes as the text grew or shrank. `Err` means
/// that an allocation failed, and then nothing has changed.
pub fn edit_shown<S: Stepper>(
    lexed: &mut LexedText<S>,
    start: usize,
    stop: usize,
    insert: &str,
) -> Result<Relexed, AllocError>
    requires accepted { IsEdit lexed.old.text start stop insert.now }
    ensures text { OnOk result (lexed.new.text ≡ apply lexed.old.text start stop insert.now) }
    ensures same_text { OnErr result (lexed.new.text ≡ lexed.old.text) }
    ensures same_tokens { OnErr result (lexed.new.tokens ≡ lexed.old.tokens) }
    ensures grammar { S.grammar lexed.new.stepper ≡ S.grammar lexed.old.stepper }
    ensures all { IfOk result (λ relexed.
        relexed.kept_front + relexed.lexed + relexed.kept_back ≡ length lexed.new.tokens) }
    ensures enough { IfOk result (λ relexed.
        let new = pieces_from lexed.new.text 0 lexed.new.tokens in
        new ≡ shown_after relexed (length insert.now) (stop - start)
        (pieces_from lexed.old.text 0 lexed.old.tokens) (changed relexed new)) }
{
    // This makes the prover use that these are the tokens of the text.
    prove!(lexed.tokens().len() <= lexed.text().len());
    lexed.edit(start, stop, insert)
}

/// Writes the tokens that an edit changed, each in the terminal style of its kind.
pub fn repaint<S: Stepper, W: fmt::Write>(
    lexed: &LexedText<S>,
    relexed: Relexed,
    output: &mut W,
) -> fmt::Result
    requires all { relexed.kept_front + relexed.lexed + relexed.kept_back
        ≡ length lexed.now.tokens }
    ensures { OnOk result (WritesInCalls W.write_str_gives output.old
        (styled (changed relexed (pieces_from lexed.now.text 0 lexed.now.tokens)))
        output.new) }
{
    let back = lexed.tokens().len() - relexed.kept_back;
    for piece in lexed.pieces_by_index(relexed.kept_front, back) {
        output.write_str(opening(piece.token.kind))?;
        output.write_str(piece.text)?;
        output.write_str(closing(piece.token.kind))?;
    }
    Ok(())
}

/// Returns the terminal's escape sequence for the style of a kind, or an empty string if it has none.
fn opening(kind: TokenKind) -> &'static str
    ensures { result.now ≡ open_style kind }
{
    match kind {
        TokenKind::LineComment { .. } | TokenKind::BlockComment { .. } => "\x1b[2m",
        TokenKind::Literal { .. } => "\x1b[32m",
        TokenKind::Lifetime { .. } | TokenKind::RawLifetime | TokenKind::UnknownPrefixLifetime =>
            "\x1b[35m",
        TokenKind::Unknown => "\x1b[31m",
        _ => "",
    }
}

/// Returns the escape sequence after a token, which resets the style.
fn closing(kind: TokenKind) -> &'static str
    ensures { result.now ≡ close_style kind }
{
    if opening(kind).is_empty() {
        ""
    } else {
        "\x1b[0m"
    }
}
