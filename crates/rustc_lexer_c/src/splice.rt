//! Splices the tokens of an edit into a caller's list.
ghost use Rattle.std.specs.Prelude.{◌≡◌, ◌+◌, ◌≤◌, ◌++◌, length, take, drop};
ghost use Rattle.rustc_lexer_c.specs.Splice.{Splices};

use crate::status::{Refusal, done};
use crate::token::CToken;

/// Replaces the tokens between the first `kept_front` and the last `kept_back` of a list with `lexed`, and writes the
/// new number of tokens into `count`. The list is at the start of the buffer and has `count` tokens.
///
/// If the list has fewer tokens than `kept_front` and `kept_back` together, or if the buffer is too small, nothing is
/// written.
#[unsafe(no_mangle)]
pub extern "C" fn rustc_lexer_splice(
    buffer: &mut [CToken],
    count: &mut usize,
    kept_front: usize,
    kept_back: usize,
    lexed: &[CToken],
) -> u32
    ensures { Splices buffer.old count.old kept_front kept_back lexed.now buffer.new count.new
        result }
{
    let old = *count;
    let places = buffer.len();
    if old > places || kept_front > old || kept_back > old - kept_front {
        return Refusal::InvalidEdit.number();
    }
    if lexed.len() > places - kept_front - kept_back {
        return Refusal::SmallBuffer.number();
    }
    let end = kept_front + lexed.len();
    buffer.copy_within(old - kept_back..old, end);
    put(buffer, kept_front, lexed);
    done(end + kept_back, count)
}

/// Overwrites the tokens from `from` on with the given ones.
fn put(all: &mut [CToken], from: usize, with: &[CToken])
    requires { from + length with.now ≤ length all.old }
    ensures { all.new ≡ take from all.old ++ (with.now ++ drop (from + length with.now) all.old) }
{
    all[from..from + with.len()].copy_from_slice(with);
}
