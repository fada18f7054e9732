//! Finds the token at an offset.
ghost use Rattle.rustc_lexer_c.specs.Offsets.{FindsToken};

use crate::token::CToken;
use rustc_lexer::{TokenStart, find_token};

/// Finds the token that contains the byte at `offset`, and writes its index and the offset at which it starts. Returns
/// whether there is such a token. If there is none, the index and the start are unchanged.
///
/// The search starts at the index and the start that the caller passes, which can be any token boundary. It reads the
/// lengths of the tokens between this boundary and `offset`. If they are not a boundary, the result has no meaning.
#[unsafe(no_mangle)]
pub extern "C" fn rustc_lexer_token_start_at(
    tokens: &[CToken],
    offset: usize,
    number: &mut usize,
    start: &mut usize,
) -> bool
    ensures { FindsToken tokens.now offset
        (record { index = number.old; offset = start.old })
        (record { index = number.new; offset = start.new }) result }
{
    let near = TokenStart {
        index: *number,
        offset: *start,
    };
    match find_token(tokens, near, offset) {
        Some(at) => {
            *number = at.index;
            *start = at.offset;
            true
        }
        None => false,
    }
}
