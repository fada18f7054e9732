//! Lexes a whole text with a stepper.
ghost use Rattle.std.specs.Prelude.{◌≡◌, ◌+◌, ◌^◌, ◌<◌, ◌++◌, IfOk, OnOk, length};
ghost use Rattle.rustc_lexer.specs.Classes.{Fits};
ghost use Rattle.rustc_lexer.specs.Tokens.{tokens_by};
ghost use Rattle.rustc_lexer.specs.model.Checkpoints.{AreBounds};

use crate::entry::stepper::Stepper;
use crate::relex::boundary::TokenStart;
use crate::relex::checkpoints::Checkpoints;
use crate::token::{Token, TokenKind};
use std::alloc::AllocError;

/// The number of tokens that are lexed at once, and between two checkpoints.
pub(crate) const BUFFER_LEN: usize = 128;

/// Lexes all tokens of a text and appends them to a list. Returns checkpoints among them.
pub(crate) fn lex_all<S: Stepper>(
    stepper: &mut S,
    text: &str,
    tokens: &mut Vec<Token>,
) -> Result<Checkpoints, AllocError>
    requires fits { Fits text.now }
    ensures tokens { OnOk result
        (tokens.new.items ≡ tokens.old.items ++ tokens_by (S.grammar stepper.old).first text.now) }
    ensures checkpoints { IfOk result (AreBounds (tokens_by (S.grammar stepper.old).first text.now)) }
    ensures count { OnOk result
        (S.count stepper.new
        ≡ S.count stepper.old + length (tokens_by (S.grammar stepper.old).first text.now)) }
    ensures grammar { S.grammar stepper.new ≡ S.grammar stepper.old }
{
    let old_count = tokens.len();
    let mut checkpoints = Checkpoints::new();
    let mut buffer = [Token {
        kind: TokenKind::Eof,
        len: 0,
    }; BUFFER_LEN];
    let mut offset = 0;
    'left: while offset < text.len() {
        let index = tokens.len() - old_count;
        checkpoints.remember(TokenStart { index, offset }, offset);
        let (count, bytes) = stepper.fill(&text[offset..], text.len() - offset, &mut buffer);
        make_room(tokens, count, offset, text.len() - offset)?;
        tokens.extend_from_slice(&buffer[..count])?;
        offset += bytes;
    }
    Ok(checkpoints)
}

/// Makes room for `count` more tokens. A list that has to grow grows by the number of tokens to expect in the `left`
/// bytes, which is estimated from the `lexed` bytes so far, but at most to twice its length. In any case it grows by an
/// eighth of its length, and by `count`.
pub(crate) fn make_room(
    list: &mut Vec<Token>,
    count: usize,
    lexed: usize,
    left: usize,
) -> Result<(), AllocError>
    requires { left < 2 ^ 32 }
    ensures { list.new.items ≡ list.old.items }
{
    let len = list.len();
    if list.capacity() - len < count {
        let expected = (left + left / 4) / (lexed / len.max(1)).max(1);
        list.reserve_exact(count.max(len / 8).max(expected.min(len)))?;
    }
    Ok(())
}
